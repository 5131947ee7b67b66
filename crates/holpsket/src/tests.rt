use crate::through::read_through;

// The number, line and place of the refusal that a schedule meets, or 0, the count of its lines and 0.
fn met(schedule: &[u8]) -> (u8, u32, u32) {
    match read_through(schedule) {
        Ok(count) => (0, count, 0),
        Err(stop) => (stop.number(), stop.line(), stop.place()),
    }
}

#[test]
fn ends(rt: HostRuntime) {
    assert_eq!(rt; met(b""), (17, 1, 0));
    assert_eq!(rt; met(b"\n"), (16, 1, 1));
    assert_eq!(rt; met(b"rig\t3\t1\tcue\tleader\t1500"), (15, 1, 0));
    assert_eq!(rt; met(b"rig\t3\t1\tcue\tleader\t1500\n"), (0, 1, 0));
    assert_eq!(rt; met(b"rig\t3\t1\tcue\tleader\t1500\r\n"), (16, 1, 6));
    assert_eq!(rt;
        met(b"rig\t3\t1\tcue\tleader\t1500\npress\t1\t2\t3\nround"),
        (15, 3, 0)
    );
}

#[test]
fn sizes(rt: HostRuntime) {
    assert_eq!(rt; met(b"rig\t2\t1\tcue\tleader\t1500\n"), (1, 1, 0));
    assert_eq!(rt; met(b"rig\t17\t1\tcue\tleader\t1500\n"), (1, 1, 0));
    assert_eq!(rt; met(b"rig\t4\t2\tcue\tleader\t1500\n"), (2, 1, 0));
    assert_eq!(rt; met(b"rig\t4\t0\tcue\tleader\t1500\n"), (2, 1, 0));
    assert_eq!(rt; met(b"rig\t5\t2\tcue\tleader\t1500\n"), (0, 1, 0));
}

#[test]
fn fallen_consoles(rt: HostRuntime) {
    assert_eq!(rt;
        met(
            b"rig\t3\t1\tcue\tleader\t1\npress\t1\t2\t3\nround\t0002\t0005\t0000\t0005\nclose\npress\t1\t-\t3\n",
        ),
        (0, 5, 0)
    );
    assert_eq!(rt;
        met(
            b"rig\t3\t1\tcue\tleader\t1\npress\t1\t2\t3\nround\t0002\t0005\t0000\t0005\nclose\npress\t1\t2\t3\n",
        ),
        (16, 5, 3)
    );
}

#[test]
fn longest(rt: HostRuntime) {
    let bytes = [b'\n'; 65_537];
    assert_eq!(rt; met(&bytes), (15, 0, 0));
    assert_eq!(rt; met(&bytes[1..]), (16, 1, 1));
}
