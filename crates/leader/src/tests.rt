use crate::state::Leader;
use back_end::BackEnd;
use console_sets::ConsoleSet;
use rounds::{MAX_ROUNDS, Refusal};
use std::process::Abort;
use std::test::Fail;

// A Leader of three consoles of which one may fall, started with all three.
fn started(entries: &[u8]) -> Result<Leader, Refusal> {
    let mut b = Leader::make(3, 1)?;
    b.start(7, entries)?;
    Ok(b)
}

fn verdicts(b: &Leader) -> Result<[u8; 3], Refusal> {
    Ok([b.verdict(1)?, b.verdict(2)?, b.verdict(3)?])
}

// The fall set and the rows of a round, and the verdicts after it.
#[derive(Clone, Copy)]
struct Line(ConsoleSet, [ConsoleSet; 3], [u8; 3]);

fn play(rt: &impl Abort, b: &mut Leader, line: Line) -> Result<(), Fail> {
    b.round(line.0, &line.1)?;
    assert_eq!(rt; verdicts(b)?, line.2);
    Ok(())
}

fn play_all(rt: &impl Abort, b: &mut Leader, lines: &[Line]) -> Result<(), Fail> {
    for line in lines {
        play(rt, b, *line)?;
    }
    Ok(())
}

#[test]
fn calm(rt: HostRuntime) -> Result<(), Fail> {
    let mut b = started(&[2, 2, 2])?;
    let lines = [Line(0, [7, 7, 7], [0, 0, 0]), Line(0, [7, 7, 7], [2, 2, 2])];
    play_all(&rt, &mut b, &lines)?;
    assert_eq!(rt; b.steady(), 2);
    Ok(())
}

#[test]
fn differing_entries(rt: HostRuntime) -> Result<(), Fail> {
    let mut b = started(&[3, 2, 1])?;
    let lines = [Line(0, [7, 7, 7], [0, 0, 0]), Line(0, [7, 7, 7], [3, 3, 3])];
    play_all(&rt, &mut b, &lines)
}

#[test]
fn losses(rt: HostRuntime) -> Result<(), Fail> {
    let mut b = started(&[1, 2, 3])?;
    let lines = [
        Line(0, [3, 6, 5], [0, 0, 0]),
        Line(0, [3, 6, 5], [0, 0, 1]),
        Line(0, [3, 6, 5], [0, 1, 1]),
        Line(0, [3, 6, 5], [1, 1, 1]),
    ];
    play_all(&rt, &mut b, &lines)?;
    assert_eq!(rt; b.steady(), 0);
    Ok(())
}

#[test]
fn falls_and_restart(rt: HostRuntime) -> Result<(), Fail> {
    let mut b = started(&[1, 2, 3])?;
    let lines = [
        Line(1, [0, 6, 7], [0, 0, 0]),
        Line(0, [0, 6, 6], [0, 0, 0]),
        Line(0, [0, 6, 6], [0, 0, 0]),
        Line(0, [0, 6, 6], [0, 1, 1]),
    ];
    play_all(&rt, &mut b, &lines)?;
    b.start(6, &[0, 3, 2])?;
    assert_eq!(rt; verdicts(&b)?, [0, 0, 0]);
    assert_eq!(rt; b.steady(), 0);
    Ok(())
}

#[test]
fn refused_makes(rt: HostRuntime) {
    assert_eq!(rt; Leader::make(2, 1).err(), Some(Refusal::Consoles));
    assert_eq!(rt; Leader::make(4, 2).err(), Some(Refusal::Tolerance));
}

#[test]
fn before_a_start(rt: HostRuntime) -> Result<(), Fail> {
    let mut b = Leader::make(3, 1)?;
    assert_eq!(rt; b.start(7, &[1, 2]), Err(Refusal::ItemCount));
    assert_eq!(rt; b.start(15, &[1, 2, 3]), Err(Refusal::OutsideMember));
    assert_eq!(rt; b.start(4, &[1, 2, 3]), Err(Refusal::TooFewRunning));
    let bad = Refusal::BadItem { console: 2 };
    assert_eq!(rt; b.start(7, &[1, 4, 0]), Err(bad));
    assert_eq!(rt; b.round(0, &[7, 7, 7]), Err(Refusal::TooFewRunning));
    Ok(())
}

#[test]
fn no_such_console(rt: HostRuntime) -> Result<(), Fail> {
    let b = started(&[1, 2, 3])?;
    assert_eq!(rt; b.verdict(0), Err(Refusal::NoSuch));
    assert_eq!(rt; b.verdict(4), Err(Refusal::NoSuch));
    Ok(())
}

#[test]
fn refused_rounds(rt: HostRuntime) -> Result<(), Fail> {
    let mut b = started(&[1, 2, 3])?;
    play(&rt, &mut b, Line(0, [7, 7, 7], [0, 0, 0]))?;
    assert_eq!(rt; b.round(0, &[7, 7]), Err(Refusal::ItemCount));
    assert_eq!(rt; b.round(8, &[7, 7, 7]), Err(Refusal::OutsideMember));
    assert_eq!(rt; b.round(3, &[0, 0, 7]), Err(Refusal::TooFewRunning));
    let bad = Refusal::BadItem { console: 2 };
    assert_eq!(rt; b.round(0, &[7, 5, 7]), Err(bad));
    let short = Refusal::ShortRow { console: 3 };
    assert_eq!(rt; b.round(0, &[7, 7, 4]), Err(short));
    play(&rt, &mut b, Line(0, [7, 7, 7], [1, 1, 1]))
}

#[test]
fn round_limit(rt: HostRuntime) -> Result<(), Fail> {
    let mut b = started(&[1, 2, 3])?;
    for _ in 0..MAX_ROUNDS {
        b.round(0, &[7, 7, 7])?;
    }
    assert_eq!(rt; b.round(0, &[7, 7, 7]), Err(Refusal::RoundLimit));
    Ok(())
}
