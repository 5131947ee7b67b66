use crate::*;
use console_sets::{ConsoleSet, MAX_CONSOLES};
use front::{Cause, Console};
use rig::{End, Page};
use rounds::Layer;

fn undecided(estimate: u8) -> Console {
    Console {
        estimate,
        halt: 0,
        decision: 0,
        round: 0,
        cause: Cause::None,
    }
}

fn decided(estimate: u8, halt: ConsoleSet, decision: u8, round: u32) -> Console {
    Console {
        estimate,
        halt,
        decision,
        round,
        cause: Cause::Front,
    }
}

// The page of the worked example.
fn worked_page() -> Page {
    let mut consoles = [undecided(0); MAX_CONSOLES];
    consoles[0] = decided(2, 2, 2, 3);
    consoles[1] = undecided(2);
    consoles[2] = decided(2, 2, 2, 3);
    Page {
        press: 1,
        end: End::Settled,
        rounds: 3,
        consoles,
    }
}

#[test]
fn worked_example(rt: HostRuntime) {
    let mut out = [b'.'; 120];
    assert_eq!(rt; print_page(&mut out, 0, 3, &worked_page(), 1500), Ok(105));
    assert_eq!(rt; print(&mut out, 105, &end_line(6)), Ok(111));
    assert_eq!(rt;
        &out,
        b"page\t1\tsettled\t3\t2
console\t1\t2\t0002\t2\t3\tfront\t5
console\t2\t2\t0000\t0\t0\tnone\t0
console\t3\t2\t0002\t2\t3\tfront\t5
end\t6
........."
    );
}

// A console that fell in an earlier press has a line of zeros.
#[test]
fn dropped_page(rt: HostRuntime) {
    let mut consoles = [undecided(0); MAX_CONSOLES];
    consoles[0] = undecided(1);
    consoles[1] = undecided(2);
    consoles[3] = undecided(4);
    let page = Page {
        press: 2,
        end: End::Dropped,
        rounds: 0,
        consoles,
    };
    let mut out = [b'.'; 133];
    assert_eq!(rt; print_page(&mut out, 0, 4, &page, 499), Ok(131));
    assert_eq!(rt;
        &out,
        b"page\t2\tdropped\t0\t0
console\t1\t1\t0000\t0\t0\tnone\t0
console\t2\t2\t0000\t0\t0\tnone\t0
console\t3\t0\t0000\t0\t0\tnone\t0
console\t4\t4\t0000\t0\t0\tnone\t0
.."
    );
}

#[test]
fn lines_that_do_not_fit(rt: HostRuntime) {
    for (room, len) in [
        (0, 0),
        (18, 0),
        (19, 19),
        (47, 19),
        (48, 48),
        (75, 48),
        (76, 76),
        (104, 76),
    ] {
        let mut out = [0; 104];
        let answer = print_page(&mut out[..room], 0, 3, &worked_page(), 1500);
        assert_eq!(rt; answer, Err(NoRoom { len }), "with room for {room}");
    }
}

#[test]
fn refusals(rt: HostRuntime) {
    let mut out = [b'.'; 43];
    assert_eq!(rt;
        print(&mut out, 0, &refused_line(3, Layer::Back, 1, 0)),
        Ok(19)
    );
    assert_eq!(rt;
        print(&mut out, 19, &refused_line(16, Layer::File, 3, 4)),
        Ok(39)
    );
    assert_eq!(rt;
        &out,
        b"refused\t3\tback\t1\t0\nrefused\t16\tfile\t3\t4\n...."
    );
}

#[test]
fn waits(rt: HostRuntime) {
    assert_eq!(rt; wait(3, 1500), 5);
    assert_eq!(rt; wait(11, 409), 4);
    assert_eq!(rt; wait(0, 1000000), 0);
}
