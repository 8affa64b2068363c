use crate::check_any;
use layout::FaultCode;

// The number and the first number of a refusal, (0, 0) where there is none.
fn refusal(bytes: &[u8]) -> (u8, usize) {
    check_any(bytes).err().map_or((0, 0), |fault| {
        let code = FaultCode::from(fault);
        (code.number, code.first)
    })
}

// Small files, good and damaged, at the edges of the rules.
#[test]
fn small_files(rt: HostRuntime) {
    assert_eq!(rt; refusal(&[1, 97, 0, 0, 0, 0]), (0, 0));
    assert_eq!(rt; refusal(&[1, 97, 2, 2, 3, 0, 0, 0]), (0, 0));
    assert_eq!(rt; refusal(&[]), (1, 0));
    assert_eq!(rt; refusal(&[1, 97, 0, 0]), (1, 4));
    assert_eq!(rt; refusal(&[0]), (2, 0));
    assert_eq!(rt; refusal(&[33]), (2, 0));
    assert_eq!(rt; refusal(&[1, 97, 0, 3, 65]), (2, 3));
    assert_eq!(rt; refusal(&[5, 97, 65]), (3, 2));
    assert_eq!(rt; refusal(&[3, 97, 98, 97]), (3, 3));
    assert_eq!(rt; refusal(&[1, 97, 2, 3, 2]), (3, 4));
    assert_eq!(rt; refusal(&[1, 97, 0, 0, 2, 0, 66, 0, 0, 66]), (4, 8));
    assert_eq!(rt; refusal(&[1, 97, 0, 0, 1, 1]), (5, 5));
    assert_eq!(rt; refusal(&[1, 97, 0, 0, 0, 0, 0]), (6, 6));
}
