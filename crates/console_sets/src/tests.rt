use crate::*;

const MOST: u8 = MAX_CONSOLES as u8;

#[test]
fn empty(rt: HostRuntime) {
    assert_eq!(rt; all_of(0), 0);
    assert_eq!(rt; size(0), 0);
    assert_eq!(rt; lowest_member(0), None);
    assert_eq!(rt; has(0, 0), false);
    assert_eq!(rt; is_within(0, 0), true);
}

#[test]
fn full(rt: HostRuntime) {
    assert_eq!(rt; all_of(3), 7);
    assert_eq!(rt; size(7), 3);
    assert_eq!(rt; all_of(MOST), ConsoleSet::MAX);
    assert_eq!(rt; size(ConsoleSet::MAX), MOST);
    assert_eq!(rt; lowest_member(ConsoleSet::MAX), Some(1));
    assert_eq!(rt; all_of(MOST + 1), ConsoleSet::MAX);
    assert_eq!(rt; is_within(ConsoleSet::MAX, 7), false);
}

#[test]
fn one_member(rt: HostRuntime) {
    let last = with(0, MOST - 1);
    assert_eq!(rt; has(last, MOST - 1), true);
    assert_eq!(rt; has(last, MOST - 2), false);
    assert_eq!(rt; lowest_member(last), Some(MOST));
    assert_eq!(rt; with(0, MOST), 0);
    assert_eq!(rt; union(4, 1), 5);
    assert_eq!(rt; difference(5, 4), 1);
}

#[test]
fn by_test(rt: HostRuntime) {
    let is_odd = |c: u8| c % 2 == 1;
    assert_eq!(rt; lowest_of(1, is_odd), None);
    assert_eq!(rt; lowest_of(4, is_odd), Some(2));
    assert_eq!(rt; count_of(4, is_odd), 2);
    assert_eq!(rt; set_of(4, is_odd), 10);
}

#[test]
fn by_console(rt: HostRuntime) {
    let items = array_of(|c| 100 - c);
    assert_eq!(rt; items[0], 100);
    assert_eq!(rt; items[3], 97);
    assert_eq!(rt; items.len(), MAX_CONSOLES);
}
