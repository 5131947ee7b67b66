use crate::*;
use rounds::Refusal;
use std::test::Fail;

#[test]
fn entries_of_those_who_run(rt: HostRuntime) -> Result<(), Fail> {
    let made = Progress::make(4, 1, true)?;
    let started = made.started(11, &[2, 1, 9, 4])?;
    let entries = started.entries;
    assert_eq!(rt; entries[0], 2);
    assert_eq!(rt; entries[2], 0);
    assert_eq!(rt; entries[3], 4);
    assert_eq!(rt; started.running, 11);
    Ok(())
}

#[test]
fn steady_rounds(rt: HostRuntime) -> Result<(), Fail> {
    let full = [15; 4];
    let one = Progress::make(4, 1, true)?
        .started(15, &[1, 2, 3, 4])?
        .advanced(0, &full)?;
    let two = one.advanced(0, &full)?;
    assert_eq!(rt; two.steady, 2);
    let fallen = two.advanced(8, &[15, 7, 15, 0])?;
    assert_eq!(rt; fallen.steady, 0);
    assert_eq!(rt; fallen.rounds, 3);
    assert_eq!(rt; fallen.running, 7);
    let entries = fallen.entries;
    assert_eq!(rt; entries[3], 4);
    Ok(())
}

#[test]
fn refusals(rt: HostRuntime) -> Result<(), Fail> {
    assert_eq!(rt; Progress::make(4, 1, false).err(), Some(Refusal::NotServed));
    let made = Progress::make(4, 1, true)?;
    assert_eq!(rt;
        made.advanced(0, &[0; 4]).err(),
        Some(Refusal::TooFewRunning)
    );
    assert_eq!(rt;
        made.started(15, &[1, 2, 3, 5]).err(),
        Some(Refusal::BadItem { console: 4 })
    );
    Ok(())
}

#[test]
fn votes(rt: HostRuntime) {
    let sets = backers(4, &[3, 1, 3, 3, 3]);
    assert_eq!(rt; sets[0], 2);
    assert_eq!(rt; sets[2], 13);
    assert_eq!(rt; votes_of(7, &sets, 2), 2);
    assert_eq!(rt; votes_of(7, &sets, 1), 0);
}
