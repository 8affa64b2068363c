use crate::*;
use grammar::{ListGrammar, RuleRecord, RuleWord};
use layout::FaultCode;
use std::alloc::{AllocError, Global};
use std::test::Fail;
use tally::Untallied;

// A rule whose word is `length` times one symbol.
fn rule(symbol: u8, letter: u8, length: u8, named: u8) -> RuleRecord<Untallied> {
    let symbols = [named; 5];
    let word = RuleWord { length, symbols };
    let tally = Untallied;
    RuleRecord {
        symbol,
        letter,
        word,
        tally,
    }
}

// What a list grammar is refused for: the number and its two numbers, zeros where it is accepted.
fn refusal(
    heap: Global,
    count: u8,
    rules: &[RuleRecord<Untallied>],
) -> Result<(u8, usize, usize), AllocError> {
    let g = ListGrammar::new(count, Vec::from_slice(heap, rules)?);
    match survey(&g) {
        Ok(_) => Ok((0, 0, 0)),
        Err(fault) => {
            let code = FaultCode::from(fault);
            Ok((code.number, code.first, code.second))
        }
    }
}

// Symbol 0 ends at A, and each later one leads to twice the one before it: norms 1, 3, 7, 15, 31, 63, 127.
#[test]
fn doubling(rt: HostRuntime) -> Result<(), Fail> {
    let rules = [
        rule(0, b'A', 0, 0),
        rule(1, b'A', 2, 0),
        rule(2, b'A', 2, 1),
        rule(3, b'A', 2, 2),
        rule(4, b'A', 2, 3),
        rule(5, b'A', 2, 4),
        rule(6, b'A', 2, 5),
    ];
    assert_eq!(rt; refusal(rt.alloc(), 6, &rules)?, (0, 0, 0));
    assert_eq!(rt; refusal(rt.alloc(), 7, &rules)?, (12, 6, 0));
    Ok(())
}

// The count comes first, then the rules as they are visited, at each its length first.
#[test]
fn count_and_rules(rt: HostRuntime) -> Result<(), Fail> {
    let heap = rt.alloc();
    assert_eq!(rt; refusal(heap, 0, &[])?, (8, 0, 0));
    assert_eq!(rt; refusal(heap, 33, &[rule(0, b'A', 5, 0)])?, (8, 33, 0));
    assert_eq!(rt;
        refusal(heap, 2, &[rule(1, b'B', 5, 0), rule(0, b'A', 0, 0)])?,
        (9, 1, 66)
    );
    assert_eq!(rt;
        refusal(heap, 2, &[rule(1, b'B', 5, 0), rule(0, b'Z', 1, 2)])?,
        (10, 0, 90)
    );
    assert_eq!(rt;
        refusal(heap, 2, &[rule(0, b'Z', 1, 2), rule(0, b'Y', 5, 9)])?,
        (9, 0, 89)
    );
    assert_eq!(rt; refusal(heap, 3, &[rule(2, b'Z', 4, 3)])?, (10, 2, 90));
    Ok(())
}

// A symbol that only reaches itself comes before one of norm 65; a norm of 64 is accepted.
#[test]
fn inputs_and_norms(rt: HostRuntime) -> Result<(), Fail> {
    let heap = rt.alloc();
    let rules = [
        rule(0, b'A', 4, 1),
        rule(1, b'A', 3, 2),
        rule(2, b'A', 4, 3),
        rule(3, b'A', 0, 0),
        rule(4, b'A', 1, 4),
    ];
    assert_eq!(rt; refusal(heap, 4, &rules)?, (12, 0, 0));
    assert_eq!(rt; refusal(heap, 5, &rules)?, (11, 4, 0));
    assert_eq!(rt; refusal(heap, 32, &rules)?, (11, 4, 0));
    let most = [
        rule(0, b'A', 3, 1),
        rule(1, b'A', 4, 2),
        rule(2, b'A', 4, 3),
        rule(3, b'A', 0, 0),
    ];
    assert_eq!(rt; refusal(heap, 4, &most)?, (0, 0, 0));
    Ok(())
}

// What an accepted grammar's survey tells: a has B aa and Z -, b has A a.
#[test]
fn norms_and_runs(rt: HostRuntime) -> Result<(), Fail> {
    let rules = [
        rule(0, b'B', 2, 0),
        rule(0, b'Z', 0, 0),
        rule(1, b'A', 1, 0),
    ];
    let g = ListGrammar::new(2, Vec::from_slice(rt.alloc(), &rules)?);
    let survey = survey(&g).ok().expect(&rt, "it is accepted");
    let skeleton = survey.skeleton();
    assert_eq!(rt; skeleton.norm(1), 2);
    assert_eq!(rt; skeleton.letter(1), b'A');
    assert_eq!(rt; skeleton.norm_of(&[1, 0]), 3);
    assert_eq!(rt; skeleton.earlier(0, 1), true);
    let mut room = *b"....";
    assert_eq!(rt; skeleton.first_input(&[1, 0], &mut room), Some(3));
    assert_eq!(rt; room, *b"AZZ.");
    let left = survey.run(&[1], b"AB").map(|run| run.left.len());
    assert_eq!(rt; left, Some(2));
    assert_eq!(rt; survey.run(&[1], b"B").is_some(), false);
    Ok(())
}
