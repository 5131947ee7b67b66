use crate::*;
use back_end::{BackEnd, is_settled};
use rounds::{MAX_ROUNDS, Refusal};
use std::test::Fail;

// A Third for four consoles of which one may fall, started with these entries.
fn started(entries: &[u8]) -> Result<Third, Refusal> {
    let mut b = Third::make(4, 1)?;
    b.start(15, entries)?;
    Ok(b)
}

// The verdicts of the four.
fn verdicts(b: &Third) -> Result<(u8, u8, u8, u8), Refusal> {
    Ok((b.verdict(1)?, b.verdict(2)?, b.verdict(3)?, b.verdict(4)?))
}

#[test]
fn calm_start(rt: HostRuntime) -> Result<(), Fail> {
    let mut b = started(&[3, 3, 3, 3])?;
    assert_eq!(rt; verdicts(&b)?, (0, 0, 0, 0));
    b.round(0, &[15; 4])?;
    assert_eq!(rt; verdicts(&b)?, (3, 3, 3, 3));
    Ok(())
}

#[test]
fn differing_entries(rt: HostRuntime) -> Result<(), Fail> {
    let mut b = started(&[2, 3, 3, 4])?;
    b.round(0, &[15; 4])?;
    assert_eq!(rt; verdicts(&b)?, (0, 0, 0, 0));
    assert_eq!(rt; is_settled(&b), false);
    b.round(0, &[15; 4])?;
    assert_eq!(rt; verdicts(&b)?, (3, 3, 3, 3));
    assert_eq!(rt; is_settled(&b), true);
    Ok(())
}

// Every row lacks a console. The rows of the first round keep two estimates apart, and those of the second join them.
#[test]
fn losses(rt: HostRuntime) -> Result<(), Fail> {
    let mut b = started(&[1, 2, 1, 2])?;
    b.round(0, &[7, 14, 7, 14])?;
    assert_eq!(rt; verdicts(&b)?, (0, 0, 0, 0));
    assert_eq!(rt; b.steady(), 0);
    b.round(0, &[7, 7, 13, 13])?;
    assert_eq!(rt; verdicts(&b)?, (0, 0, 0, 0));
    b.round(0, &[15, 7, 15, 13])?;
    assert_eq!(rt; verdicts(&b)?, (1, 1, 1, 1));
    Ok(())
}

// Console 4 is heard while it falls, and keeps what it has.
#[test]
fn falls(rt: HostRuntime) -> Result<(), Fail> {
    let mut b = started(&[4, 4, 4, 4])?;
    b.round(8, &[15, 7, 15, 0])?;
    assert_eq!(rt; verdicts(&b)?, (4, 4, 4, 0));
    assert_eq!(rt;
        b.round(0, &[15, 7, 7, 0]),
        Err(Refusal::BadItem { console: 1 })
    );
    b.round(0, &[7, 7, 7, 0])?;
    assert_eq!(rt; b.steady(), 1);
    assert_eq!(rt; verdicts(&b)?, (4, 4, 4, 0));
    Ok(())
}

#[test]
fn restarts(rt: HostRuntime) -> Result<(), Fail> {
    let mut b = started(&[4, 4, 4, 4])?;
    b.round(0, &[15; 4])?;
    b.start(7, &[1, 1, 1, 9])?;
    assert_eq!(rt; verdicts(&b)?, (0, 0, 0, 0));
    assert_eq!(rt; b.steady(), 0);
    b.round(0, &[7, 7, 7, 0])?;
    assert_eq!(rt; verdicts(&b)?, (1, 1, 1, 0));
    Ok(())
}

#[test]
fn refused_make(rt: HostRuntime) {
    assert_eq!(rt; Third::make(2, 1).err(), Some(Refusal::Consoles));
    assert_eq!(rt; Third::make(4, 2).err(), Some(Refusal::Tolerance));
    assert_eq!(rt; Third::make(6, 2).err(), Some(Refusal::NotServed));
    assert_eq!(rt; Third::make(7, 2).err(), None);
}

#[test]
fn bad_calls_change_nothing(rt: HostRuntime) -> Result<(), Fail> {
    let mut b = Third::make(4, 1)?;
    assert_eq!(rt; b.round(0, &[0; 3]), Err(Refusal::ItemCount));
    assert_eq!(rt; b.round(1, &[0; 4]), Err(Refusal::OutsideMember));
    assert_eq!(rt; b.round(0, &[0; 4]), Err(Refusal::TooFewRunning));
    assert_eq!(rt; b.start(31, &[4; 4]), Err(Refusal::OutsideMember));
    b.start(15, &[4; 4])?;
    assert_eq!(rt; b.start(15, &[5; 4]), Err(Refusal::BadItem { console: 1 }));
    assert_eq!(rt;
        b.round(0, &[15, 15, 15, 8]),
        Err(Refusal::ShortRow { console: 4 })
    );
    assert_eq!(rt; b.verdict(0), Err(Refusal::NoSuch));
    assert_eq!(rt; b.verdict(5), Err(Refusal::NoSuch));
    b.round(0, &[15; 4])?;
    assert_eq!(rt; verdicts(&b)?, (4, 4, 4, 4));
    assert_eq!(rt; b.steady(), 1);
    Ok(())
}

#[test]
fn round_limit(rt: HostRuntime) -> Result<(), Fail> {
    let mut b = started(&[1, 2, 3, 4])?;
    for _ in 0..MAX_ROUNDS {
        b.round(0, &[15; 4])?;
    }
    assert_eq!(rt; b.round(0, &[15; 4]), Err(Refusal::RoundLimit));
    assert_eq!(rt; b.steady(), MAX_ROUNDS);
    Ok(())
}
