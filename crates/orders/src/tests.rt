use crate::*;

#[test]
fn equal_proposals(rt: HostRuntime) {
    let ranks = ranks(&[Cue(7), Cue(5), Cue(7)], 7);
    assert_eq!(rt; ranks[0], 1);
    assert_eq!(rt; ranks[1], 0);
    assert_eq!(rt; ranks[2], 2);
}

#[test]
fn equal_ticks(rt: HostRuntime) {
    let early = FirstPress { tick: 1, cue: 9 };
    let late = FirstPress { tick: 2, cue: 0 };
    let lower = FirstPress { tick: 1, cue: 8 };
    let ranks = ranks(&[early, late, lower], 7);
    assert_eq!(rt; ranks[0], 1);
    assert_eq!(rt; ranks[1], 2);
    assert_eq!(rt; ranks[2], 0);
}

#[test]
fn fallen_console(rt: HostRuntime) {
    let ranks = ranks(&[Cue(7), Cue(5), Cue(6)], 5);
    assert_eq!(rt; ranks[0], 1);
    assert_eq!(rt; ranks[1], 0);
    assert_eq!(rt; ranks[2], 0);
}

#[test]
fn console_without_proposal(rt: HostRuntime) {
    let ranks = ranks(&[Cue(7), Cue(5)], 7);
    assert_eq!(rt; ranks[0], 1);
    assert_eq!(rt; ranks[2], 0);
}
