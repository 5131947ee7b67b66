use crate::*;
use console_sets::ConsoleSet;
use orders::Cue;
use std::test::Fail;

// The number and the place of the refusal that a line meets, zeros where it meets none.
fn met(reading: &Reading, bytes: &[u8]) -> (u8, u32) {
    match reading.read(bytes, 7) {
        Ok(_) => (0, 0),
        Err(refusal) => (refusal.number(), refusal.place()),
    }
}

// Three consoles of which the second has fallen.
fn reading(stage: Stage, proposals: ProposalKind) -> Reading {
    Reading {
        stage,
        n: 3,
        proposals,
        fallen: 2,
    }
}

#[test]
fn words(rt: HostRuntime) {
    let start = Reading::begin();
    let open = reading(Stage::Open, ProposalKind::Cue);
    let closed = reading(Stage::Closed, ProposalKind::Cue);
    assert_eq!(rt; met(&start, b""), (16, 1));
    assert_eq!(rt; met(&start, b"rig\r"), (16, 1));
    assert_eq!(rt; met(&start, b"Rig\t3"), (16, 1));
    assert_eq!(rt; met(&start, b"rigs"), (16, 1));
    assert_eq!(rt; met(&start, b"close"), (17, 0));
    assert_eq!(rt; met(&start, b"press\t1\t2\t3"), (17, 0));
    assert_eq!(rt; met(&closed, b"rig"), (17, 0));
    assert_eq!(rt; met(&closed, b"round\tbad"), (17, 0));
    assert_eq!(rt; met(&closed, b"close"), (17, 0));
    assert_eq!(rt; met(&open, b"rig"), (17, 0));
    assert_eq!(rt; met(&open, b"close"), (0, 0));
    assert_eq!(rt; met(&open, b"close\t"), (16, 0));
}

#[test]
fn rig_lines(rt: HostRuntime) {
    let start = Reading::begin();
    assert_eq!(rt; met(&start, b"rig\t3\t1\tcue\tleader\t1500"), (0, 0));
    assert_eq!(rt; met(&start, b"rig\t255\t0\tfirst\tthird\t1000000"), (0, 0));
    assert_eq!(rt; met(&start, b"rig"), (16, 0));
    assert_eq!(rt; met(&start, b"rig\t3\t1\tcue\tleader\t1500\t"), (16, 0));
    assert_eq!(rt; met(&start, b"rig\t3\t\t1\tcue\tleader"), (16, 3));
    assert_eq!(rt; met(&start, b"rig\t256\t1\tcue\tleader\t1500"), (16, 2));
    assert_eq!(rt; met(&start, b"rig\t+3\t1\tcue\tleader\t1500"), (16, 2));
    assert_eq!(rt; met(&start, b"rig\t3\t00\tcue\tleader\t1500"), (16, 3));
    assert_eq!(rt; met(&start, b"rig\t3\t1\tCue\tleader\t1500"), (16, 4));
    assert_eq!(rt; met(&start, b"rig\t3\t1\tcue\tleader \t1500"), (16, 5));
    assert_eq!(rt; met(&start, b"rig\t3\t1\tcue\tleader\t0"), (16, 6));
    assert_eq!(rt; met(&start, b"rig\t3\t1\tcue\tleader\t1000001"), (16, 6));
    assert_eq!(rt;
        met(&start, b"rig\t3\t1\tcue\tleader\t18446744073709551617"),
        (16, 6)
    );
}

#[test]
fn press_lines(rt: HostRuntime) {
    let cues = reading(Stage::Closed, ProposalKind::Cue);
    let firsts = reading(Stage::Closed, ProposalKind::First);
    assert_eq!(rt; met(&cues, b"press\t0\t-\t4294967295"), (0, 0));
    assert_eq!(rt; met(&cues, b"press\t0\t-\t4294967296"), (16, 4));
    assert_eq!(rt; met(&cues, b"press\t0\t-\t1\t2"), (16, 0));
    assert_eq!(rt; met(&cues, b"press\t0\t5\t1"), (16, 3));
    assert_eq!(rt; met(&cues, b"press\t-\t-\t1"), (16, 2));
    assert_eq!(rt; met(&cues, b"press\t1:2\t-\t1"), (16, 2));
    assert_eq!(rt; met(&firsts, b"press\t1:2\t-\t0:0"), (0, 0));
    assert_eq!(rt; met(&firsts, b"press\t1:2\t-\t0"), (16, 4));
    assert_eq!(rt; met(&firsts, b"press\t1:2\t-\t0:0:0"), (16, 4));
    assert_eq!(rt; met(&firsts, b"press\t:2\t-\t0:0"), (16, 2));
}

#[test]
fn round_lines(rt: HostRuntime) {
    let open = reading(Stage::Open, ProposalKind::Cue);
    assert_eq!(rt; met(&open, b"round\t0000\t0005\t0000\t00ff"), (0, 0));
    assert_eq!(rt; met(&open, b"round\t0000\t0005\t0000"), (16, 0));
    assert_eq!(rt; met(&open, b"round\t000\t0005\t0000\t0005"), (16, 2));
    assert_eq!(rt; met(&open, b"round\t0000\t0005\t0000\t000A"), (16, 5));
    assert_eq!(rt; met(&open, b"round\t0000\t0005\t00000\t0005"), (16, 4));
}

#[test]
fn values(rt: HostRuntime) -> Result<(), Fail> {
    let closed = reading(Stage::Closed, ProposalKind::Cue);
    let open = reading(Stage::Open, ProposalKind::Cue);
    let Ok(Said::Press(Proposals::Cues(cues))) = closed.read(b"press\t7000\t-\t9000", 2) else {
        return Err(Fail::new("no cues"));
    };
    let Cue(first) = cues[0];
    let Cue(third) = cues[2];
    assert_eq!(rt; first, 7000);
    assert_eq!(rt; third, 9000);
    let Ok(Said::Round(round)) = open.read(b"round\t0002\t0005\t0000\tabcd", 3) else {
        return Err(Fail::new("no round"));
    };
    assert_eq!(rt; round.falls, 2);
    assert_eq!(rt; round.rows[2], 0xabcd);
    let empty: ConsoleSet = 0;
    assert_eq!(rt; round.rows[3], empty);
    Ok(())
}

// The lengths of the next line and of what is left.
fn lengths(input: &[u8]) -> Option<(usize, usize)> {
    next_line(input).map(|(line, rest)| (line.len(), rest.len()))
}

#[test]
fn lines(rt: HostRuntime) {
    let mut bytes = [b'x'; 514];
    bytes[512] = b'\n';
    assert_eq!(rt; lengths(&bytes), Some((512, 1)));
    bytes[512] = b'x';
    bytes[513] = b'\n';
    assert_eq!(rt; lengths(&bytes), None);
    assert_eq!(rt; lengths(b"close"), None);
    assert_eq!(rt; lengths(b""), None);
    assert_eq!(rt; lengths(b"\nclose\n"), Some((0, 6)));
}

#[test]
fn fields_one_by_one(rt: HostRuntime) -> Result<(), Fail> {
    let Some(Line::Press { mut fields, line }) = take_apart(b"press\t7\t\t10", 2) else {
        return Err(Fail::new("no press"));
    };
    assert_eq!(rt; line, 2);
    assert_eq!(rt; fields.next().map(|field| field.len()), Some(1));
    assert_eq!(rt; fields.next().map(|field| field.len()), Some(0));
    assert_eq!(rt; fields.next().map(|field| field.len()), Some(2));
    assert_eq!(rt; fields.next().is_none(), true);
    Ok(())
}
