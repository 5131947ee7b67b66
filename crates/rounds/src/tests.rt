use crate::checks::*;
use crate::items::is_author;
use crate::refusals::{Layer, Refusal};
use crate::{MAX_ROUNDS, MIN_CONSOLES};
use console_sets::{ConsoleSet, MAX_CONSOLES};

const MOST: u8 = MAX_CONSOLES as u8;

#[test]
fn sizes(rt: HostRuntime) {
    assert_eq!(rt; check_size(MIN_CONSOLES - 1, 1), Err(Refusal::Consoles));
    assert_eq!(rt; check_size(MIN_CONSOLES, 1), Ok(()));
    assert_eq!(rt; check_size(MOST, 7), Ok(()));
    assert_eq!(rt; check_size(MOST + 1, 1), Err(Refusal::Consoles));
    assert_eq!(rt; check_size(3, 0), Err(Refusal::Tolerance));
    assert_eq!(rt; check_size(4, 2), Err(Refusal::Tolerance));
    assert_eq!(rt; check_size(MOST, 128), Err(Refusal::Tolerance));
    assert_eq!(rt; check_make(4, 1, false), Err(Refusal::NotServed));
}

#[test]
fn starts(rt: HostRuntime) {
    assert_eq!(rt; check_start(3, 1, 7, &[1, 2, 3]), Ok(()));
    assert_eq!(rt; check_start(3, 1, 5, &[3, 9, 3]), Ok(()));
    assert_eq!(rt; check_start(3, 1, 7, &[1, 2]), Err(Refusal::ItemCount));
    assert_eq!(rt;
        check_start(3, 1, 15, &[1, 2, 3]),
        Err(Refusal::OutsideMember)
    );
    assert_eq!(rt;
        check_start(3, 1, 4, &[1, 2, 3]),
        Err(Refusal::TooFewRunning)
    );
    assert_eq!(rt;
        check_start(3, 1, 7, &[1, 4, 0]),
        Err(Refusal::BadItem { console: 2 })
    );
}

// A round of five consoles, of which console 5 has fallen and two may fall.
fn checked(rounds: u32, falls: ConsoleSet, rows: &[ConsoleSet]) -> Result<(), Refusal> {
    check_round(5, 2, 15, rounds, falls, rows)
}

#[test]
fn rounds(rt: HostRuntime) {
    assert_eq!(rt; checked(MAX_ROUNDS - 1, 8, &[7, 7, 15, 0, 0]), Ok(()));
    assert_eq!(rt;
        checked(MAX_ROUNDS, 8, &[7, 7, 15, 0, 0]),
        Err(Refusal::RoundLimit)
    );
    assert_eq!(rt; checked(0, 8, &[7, 7, 15, 0]), Err(Refusal::ItemCount));
    assert_eq!(rt;
        checked(0, 16, &[7, 7, 15, 0, 0]),
        Err(Refusal::OutsideMember)
    );
    assert_eq!(rt;
        checked(0, 12, &[7, 7, 0, 0, 0]),
        Err(Refusal::TooFewRunning)
    );
    assert_eq!(rt;
        checked(0, 8, &[3, 7, 15, 1, 0]),
        Err(Refusal::BadItem { console: 4 })
    );
    assert_eq!(rt;
        checked(0, 8, &[7, 13, 15, 0, 0]),
        Err(Refusal::BadItem { console: 2 })
    );
    assert_eq!(rt;
        checked(0, 8, &[7, 7, 28, 0, 0]),
        Err(Refusal::BadItem { console: 3 })
    );
    assert_eq!(rt;
        checked(0, 8, &[7, 6, 12, 0, 0]),
        Err(Refusal::ShortRow { console: 2 })
    );
}

#[test]
fn questions(rt: HostRuntime) {
    assert_eq!(rt; check_console(3, 0), Err(Refusal::NoSuch));
    assert_eq!(rt; check_console(3, 3), Ok(()));
    assert_eq!(rt; check_console(3, 4), Err(Refusal::NoSuch));
    assert_eq!(rt; is_steady(3, 5, 0, &[5, 0, 5]), true);
    assert_eq!(rt; is_steady(3, 5, 4, &[5, 0, 5]), false);
    assert_eq!(rt; is_steady(3, 7, 0, &[7, 7, 5]), false);
}

#[test]
fn shown(rt: HostRuntime) {
    let bad = Refusal::BadItem { console: 3 };
    assert_eq!(rt; bad.number(), 12);
    assert_eq!(rt; bad.place(), 3);
    assert_eq!(rt; bad.layer(), Layer::Rig);
    assert_eq!(rt; Refusal::NotServed.layer(), Layer::Back);
    assert_eq!(rt; Refusal::NoSuch.number(), 14);
    assert_eq!(rt; Refusal::NoSuch.place(), 0);
}

#[test]
fn words(rt: HostRuntime) {
    assert_eq!(rt; Layer::File.word(), "file");
    assert_eq!(rt; Layer::Rig.word(), "rig");
    assert_eq!(rt; Layer::Back.word(), "back");
}

#[test]
fn authors(rt: HostRuntime) {
    assert_eq!(rt; is_author(1, 0), true);
    assert_eq!(rt; is_author(0, 0), false);
    assert_eq!(rt; is_author(255, 254), true);
    assert_eq!(rt; is_author(0, 255), false);
}
