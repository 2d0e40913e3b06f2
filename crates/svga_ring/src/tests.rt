//! Worked values.
use super::*;

const RING: Geometry = Geometry {
    min: 1164,
    max: 11404,
};

#[test]
fn plans_in_a_ring_of_2560_dwords(rt: HostRuntime) {
    for (planned, want) in [
        (plan(RING, 1164, 1164, 10236), Planned::InPlace),
        (plan(RING, 1164, 1164, 10240), Planned::TooLarge),
        (plan(RING, 11400, 1164, 4), Planned::NoRoom { free: 4 }),
        (plan(RING, 11400, 1172, 8), Planned::Bounce { first: 4 }),
        (plan(RING, 1200, 1212, 8), Planned::InPlace),
        (plan(RING, 1200, 1212, 12), Planned::NoRoom { free: 12 }),
    ] {
        assert_eq!(rt; planned, want);
    }
    assert_eq!(rt; advance(RING, 11400, 8), 1168);
    assert_eq!(rt; free(RING, 1168, 1172), 4);
}

#[test]
fn fences_round_the_last_number(rt: HostRuntime) {
    assert_eq!(rt; fence_number(4294967295, 0), 4294967295);
    assert_eq!(rt; fence_number(4294967295, 1), 1);
    assert!(rt; passed(1, 4294967295));
    assert!(rt; !passed(4294967295, 1));
    assert!(rt; !passed(4294967279, 4294967280));
    assert_eq!(rt; seen_index(4294967295, 0, 3, 4294967294), 0);
    assert_eq!(rt; seen_index(4294967295, 0, 3, 4294967295), 1);
    assert_eq!(rt; seen_index(4294967295, 1, 3, 1), 2);
}
