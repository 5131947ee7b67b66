use crate::*;
use console_sets::ConsoleSet;

fn undecided(estimate: u8, halt: ConsoleSet) -> Console {
    Console {
        estimate,
        halt,
        decision: 0,
        round: 0,
        cause: Cause::None,
    }
}

fn decided(estimate: u8, halt: ConsoleSet, decision: u8, round: u32) -> Console {
    Console {
        estimate,
        halt,
        decision,
        round,
        cause: Cause::Front,
    }
}

// Author 2 precedes author 1, and author 1 precedes author 3. Console 2 falls in round 1.
#[test]
fn worked_example(rt: HostRuntime) {
    let ranks = [1, 0, 2];
    let opened = opening_consoles(7);
    assert_eq!(rt; opened[1], undecided(2, 0));
    let first = after_halting(3, &ranks, 5, &[5, 0, 7], &opened);
    assert_eq!(rt; first[0], undecided(1, 2));
    assert_eq!(rt; first[1], undecided(2, 0));
    assert_eq!(rt; first[2], undecided(2, 0));
    let second = after_halting(3, &ranks, 5, &[5, 0, 5], &first);
    assert_eq!(rt; second[0], undecided(2, 2));
    assert_eq!(rt; second[1], undecided(2, 0));
    assert_eq!(rt; second[2], undecided(2, 2));
    let third = after_deciding(3, 1, 5, &[5, 0, 5], &second);
    assert_eq!(rt; third[0], decided(2, 2, 2, 3));
    assert_eq!(rt; third[1], undecided(2, 0));
    assert_eq!(rt; third[2], decided(2, 2, 2, 3));
    let entered = entries(3, 1, 5, &[5, 0, 5], &second);
    assert_eq!(rt; entered[0], 2);
    assert_eq!(rt; entered[1], 0);
    assert_eq!(rt; entered[2], 2);
}

// Each row of round 1 misses one console: every halt set then grows to two members, and nobody decides.
#[test]
fn rows_that_miss_one(rt: HostRuntime) {
    let ranks = [1, 0, 2];
    let rows = [7, 7, 7];
    let first = after_halting(3, &ranks, 7, &[3, 6, 5], &opening_consoles(7));
    let second = after_halting(3, &ranks, 7, &rows, &first);
    let third = after_deciding(3, 1, 7, &rows, &second);
    assert_eq!(rt; third[0], undecided(2, 6));
    assert_eq!(rt; third[1], undecided(2, 5));
    assert_eq!(rt; third[2], undecided(1, 3));
    let entered = entries(3, 1, 7, &rows, &second);
    assert_eq!(rt; entered[0], 1);
    assert_eq!(rt; entered[1], 2);
    assert_eq!(rt; entered[2], 3);
}

// Consoles 2 and 4 share the lowest cue, so author 2 precedes author 4, and both precede authors 1 and 3.
#[test]
fn shared_lowest_cue(rt: HostRuntime) {
    let ranks = [2, 0, 3, 1];
    let rows = [15, 15, 15, 15];
    let first = after_halting(4, &ranks, 15, &rows, &opening_consoles(15));
    let second = after_halting(4, &ranks, 15, &rows, &first);
    let third = after_deciding(4, 1, 15, &rows, &second);
    assert_eq!(rt; third[0], decided(2, 0, 2, 3));
    assert_eq!(rt; third[3], decided(2, 0, 2, 3));
}

// With t = 2 a halt set of two members leaves the new estimate, one of three members does not.
#[test]
fn halt_sets_of_t_and_more(rt: HostRuntime) {
    let mut consoles = opening_consoles(31);
    consoles[0] = undecided(4, 6);
    consoles[1] = undecided(5, 28);
    let rows = [13, 2, 7, 0, 0];
    let third = after_deciding(5, 2, 7, &rows, &consoles);
    assert_eq!(rt; third[0], decided(4, 6, 4, 4));
    assert_eq!(rt; third[1], undecided(5, 28));
    assert_eq!(rt; third[2], undecided(3, 0));
    let entered = entries(5, 2, 7, &rows, &consoles);
    assert_eq!(rt; entered[0], 4);
    assert_eq!(rt; entered[1], 2);
    assert_eq!(rt; entered[2], 4);
    assert_eq!(rt; Cause::Front.word(), "front");
}

// A console of an array, and beyond its last one what has nothing.
#[test]
fn consoles_by_index(rt: HostRuntime) {
    let opened = opening_consoles(5);
    assert_eq!(rt; console_at(&opened, 2), undecided(3, 0));
    assert_eq!(rt; console_at(&opened, 16), undecided(0, 0));
    assert_eq!(rt; Console::fresh(2), undecided(2, 0));
}
