//! The fates that are chosen for a peer.
use arc_courier::{Courier, Direct, Fate, Scripted};

/// What peers 2, 3 and 4 meet in four exchanges: two fates that cycle, two that come once, and none.
const FATES: [(Fate, Fate, Fate); 4] = [
    (Fate::Now, Fate::Both, Fate::Now),
    (Fate::Later, Fate::Mute, Fate::Now),
    (Fate::Now, Fate::Now, Fate::Now),
    (Fate::Later, Fate::Now, Fate::Now),
];

#[test]
fn a_pattern_comes_once_or_cycles_and_has_up_to_64_fates(rt: HostRuntime) {
    let mut courier = Scripted::new();
    courier.set(2, true, [Fate::Now, Fate::Later].as_slice());
    courier.set(3, false, [Fate::Both, Fate::Mute].as_slice());
    for (two, three, four) in FATES {
        assert_eq!(rt; courier.fate(2), two);
        assert_eq!(rt; courier.fate(3), three);
        assert_eq!(rt; courier.fate(4), four);
    }
    courier.set(0, false, [Fate::Mute; 64].as_slice());
    for _ in 0..63 {
        assert_eq!(rt; courier.fate(0), Fate::Mute);
    }
    courier.set(0, true, [Fate::Later].as_slice());
    for _ in 0..65 {
        assert_eq!(rt; courier.fate(0), Fate::Later);
    }
    let mut direct = Direct;
    assert_eq!(rt; direct.fate(0), Fate::Now);
}
