use back_end::BackEnd;
use console_sets::ConsoleSet;
use front::Cause;
use leader::Leader;
use orders::{Cue, Order};
use rig::{Call, End, Rig};
use rounds::Refusal;
use std::test::Fail;
use third::Third;

// The number of a refusal and the console that it names, zeros for none.
fn shown(refusal: Option<Refusal>) -> (u8, u8) {
    match refusal {
        Some(refusal) => (refusal.number(), refusal.place()),
        None => (0, 0),
    }
}

fn one<B: BackEnd>(rig: &mut Rig<B>, call: Call<'_, Cue>) -> (u8, u8) {
    let calls = [call];
    let mut answers = [None];
    rig.perform(&calls, &mut answers);
    shown(answers[0])
}

fn press<B: BackEnd>(rig: &mut Rig<B>, cues: &[Cue]) -> (u8, u8) {
    one(rig, Call::Press(cues))
}

fn round<B: BackEnd>(
    rig: &mut Rig<B>,
    press: u32,
    falls: ConsoleSet,
    rows: &[ConsoleSet],
) -> (u8, u8) {
    one(
        rig,
        Call::Round {
            rig: 5,
            press,
            falls,
            rows,
        },
    )
}

// A call to close, which may stand beside calls with these proposals.
fn closing(press: u32, _proposals: &[Cue]) -> Call<'_, Cue> {
    Call::Close { rig: 5, press }
}

fn close<B: BackEnd>(rig: &mut Rig<B>, press: u32) -> (u8, u8) {
    let none: [Cue; 0] = [];
    one(rig, closing(press, &none))
}

#[test]
fn worked_example(rt: HostRuntime) -> Result<(), Fail> {
    let mut rig = Rig::<Leader>::set_up(5, 3, 1)?;
    assert_eq!(rt; press(&mut rig, &[Cue(7000), Cue(5000), Cue(9000)]), (0, 0));
    assert_eq!(rt; round(&mut rig, 1, 2, &[5, 0, 7]), (0, 0));
    let first = rig.console(1)?;
    assert_eq!(rt; (first.estimate, first.halt), (1, 2));
    let third = rig.console(3)?;
    assert_eq!(rt; (third.estimate, third.halt), (2, 0));
    assert_eq!(rt; round(&mut rig, 1, 0, &[5, 0, 5]), (0, 0));
    assert_eq!(rt; round(&mut rig, 1, 0, &[5, 0, 5]), (0, 0));
    assert_eq!(rt; close(&mut rig, 1), (0, 0));
    let page = rig.page(1)?;
    assert_eq!(rt; page.end, End::Settled);
    assert_eq!(rt; page.rounds, 3);
    let last = rig.page_console(1, 3)?;
    assert_eq!(rt; (last.decision, last.round), (2, 3));
    assert_eq!(rt; last.cause, Cause::Front);
    Ok(())
}

#[test]
fn missed_in_a_ring(rt: HostRuntime) -> Result<(), Fail> {
    let mut rig = Rig::<Leader>::set_up(5, 3, 1)?;
    assert_eq!(rt; press(&mut rig, &[Cue(7000), Cue(5000), Cue(9000)]), (0, 0));
    assert_eq!(rt; round(&mut rig, 1, 0, &[3, 6, 5]), (0, 0));
    assert_eq!(rt; round(&mut rig, 1, 0, &[7, 7, 7]), (0, 0));
    let second = rig.console(2)?;
    assert_eq!(rt; (second.estimate, second.halt), (2, 5));
    assert_eq!(rt; round(&mut rig, 1, 0, &[7, 7, 7]), (0, 0));
    assert_eq!(rt; rig.console(1)?.decision, 0);
    assert_eq!(rt; round(&mut rig, 1, 0, &[7, 7, 7]), (0, 0));
    assert_eq!(rt; round(&mut rig, 1, 0, &[7, 7, 7]), (0, 0));
    let first = rig.console(1)?;
    assert_eq!(rt; (first.decision, first.round), (1, 5));
    assert_eq!(rt; first.cause, Cause::Back);
    Ok(())
}

#[test]
fn falls_carried_over(rt: HostRuntime) -> Result<(), Fail> {
    let cues = [Cue(4), Cue(3), Cue(2), Cue(1)];
    let mut rig = Rig::<Third>::set_up(5, 4, 1)?;
    assert_eq!(rt; press(&mut rig, &cues), (0, 0));
    assert_eq!(rt; round(&mut rig, 1, 8, &[15, 15, 15, 0]), (0, 0));
    assert_eq!(rt; close(&mut rig, 1), (0, 0));
    assert_eq!(rt; rig.page(1)?.end, End::Dropped);
    assert_eq!(rt; press(&mut rig, &cues), (0, 0));
    assert_eq!(rt; rig.console(4)?.estimate, 0);
    assert_eq!(rt; round(&mut rig, 2, 0, &[7, 7, 7, 0]), (0, 0));
    assert_eq!(rt; round(&mut rig, 2, 0, &[7, 7, 7, 0]), (0, 0));
    assert_eq!(rt; round(&mut rig, 2, 0, &[7, 7, 7, 0]), (0, 0));
    assert_eq!(rt; close(&mut rig, 2), (0, 0));
    assert_eq!(rt; rig.page(2)?.end, End::Settled);
    let last = rig.page_console(2, 1)?;
    assert_eq!(rt; (last.decision, last.halt), (3, 8));
    Ok(())
}

#[test]
fn refusals(rt: HostRuntime) -> Result<(), Fail> {
    let cues = [Cue(1), Cue(2), Cue(3)];
    let mut rig = Rig::<Leader>::set_up(5, 3, 1)?;
    assert_eq!(rt; press(&mut rig, &cues[0..2]), (6, 0));
    assert_eq!(rt; close(&mut rig, 1), (7, 0));
    assert_eq!(rt; press(&mut rig, &cues), (0, 0));
    assert_eq!(rt; press(&mut rig, &cues), (4, 0));
    assert_eq!(rt; round(&mut rig, 2, 0, &[7, 7, 7]), (7, 0));
    assert_eq!(rt; round(&mut rig, 1, 0, &[7, 7]), (9, 0));
    assert_eq!(rt; round(&mut rig, 1, 8, &[7, 7, 7]), (10, 0));
    assert_eq!(rt; round(&mut rig, 1, 6, &[1, 0, 0]), (11, 0));
    assert_eq!(rt; round(&mut rig, 1, 0, &[7, 5, 1]), (12, 2));
    assert_eq!(rt; round(&mut rig, 1, 0, &[7, 2, 7]), (13, 2));
    assert_eq!(rt; rig.console(1)?.estimate, 1);
    assert!(rt; rig.console(0).is_err());
    assert!(rt; rig.console(4).is_err());
    Ok(())
}

#[test]
fn sixty_four_presses(rt: HostRuntime) -> Result<(), Fail> {
    let cues = [Cue(1), Cue(2), Cue(3)];
    let mut rig = Rig::<Leader>::set_up(5, 3, 1)?;
    for number in 1..65 {
        assert_eq!(rt; press(&mut rig, &cues), (0, 0));
        assert_eq!(rt; close(&mut rig, number), (0, 0));
    }
    assert_eq!(rt; press(&mut rig, &cues), (5, 0));
    Ok(())
}

#[test]
fn thousand_rounds(rt: HostRuntime) -> Result<(), Fail> {
    let mut rig = Rig::<Third>::set_up(5, 4, 1)?;
    assert_eq!(rt; press(&mut rig, &[Cue(1), Cue(2), Cue(3), Cue(4)]), (0, 0));
    for _ in 0..1000 {
        assert_eq!(rt; round(&mut rig, 1, 0, &[15, 15, 15, 15]), (0, 0));
    }
    assert_eq!(rt; round(&mut rig, 1, 0, &[15, 15, 15, 15]), (8, 0));
    assert_eq!(rt; rig.console(4)?.round, 3);
    Ok(())
}
