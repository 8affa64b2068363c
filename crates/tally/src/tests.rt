use crate::*;

// Lengths go round at 2^32, and a length and its negation add to zero.
#[test]
fn lengths_go_round(rt: HostRuntime) {
    let most = FootMm { mm: u32::MAX };
    assert!(rt; most.add(FootMm { mm: 2 }) == FootMm { mm: 1 });
    assert!(rt; most.neg() == FootMm { mm: 1 });
    assert!(rt; LastMm { mm: 7 }.neg().add(LastMm { mm: 7 }) == LastMm::zero());
}

// A list of pairs is summed part by part; of odd ones the even ones go.
#[test]
fn pairs_are_summed(rt: HostRuntime) {
    let a = Pair(FootMm { mm: 270 }, OddOnes { bits: 6 });
    let b = Pair(FootMm { mm: 265 }, OddOnes { bits: 3 });
    let all = sum(&[a, b]);
    assert!(rt; all.0 == FootMm { mm: 535 });
    assert!(rt; all.1 == OddOnes { bits: 5 });
    assert!(rt; sum(&[a, b, a]) != all);
}
