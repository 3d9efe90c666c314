// The rules on examples.
use super::frame::*;
use super::pair::*;
use super::plain::*;
use super::program::*;
use super::rule::*;

const LEAST_START: u64 = 60_000;

const LEAST_FINISH: u64 = 110_000;

#[test]
fn bases(rt: HostRuntime) {
    assert_eq!(rt; Plain(Clock).base(LEAST_START, LEAST_FINISH), 0);
    assert_eq!(rt; Plain(Frame).base(LEAST_START, LEAST_FINISH), 55_440);
    assert_eq!(rt; Plain(Start).base(LEAST_START, LEAST_FINISH), 60_000);
    assert_eq!(rt; Plain(Stamp).base(LEAST_START, LEAST_FINISH), 54_560);
    assert_eq!(rt; Plain(Stamp).base(0, 55_439), 0);
}

#[test]
fn picks(rt: HostRuntime) {
    let mut rule = program_rule();
    assert_eq!(rt; rule.count(), 4);
    assert_eq!(rt; rule.base(LEAST_START, LEAST_FINISH), 0);
    assert!(rt; rule.pick(3));
    assert_eq!(rt; rule.base(LEAST_START, LEAST_FINISH), 54_560);
    assert!(rt; rule.pick(1));
    assert!(rt; !rule.pick(4));
    assert_eq!(rt; rule.base(LEAST_START, LEAST_FINISH), 55_440);
    assert_eq!(rt;
        base_after_pick(&mut rule, 2, LEAST_START, LEAST_FINISH),
        60_000
    );
    assert_eq!(rt;
        base_after_pick(&mut rule, u64::MAX, LEAST_START, LEAST_FINISH),
        60_000
    );
    assert_eq!(rt; base_after_pick(&mut rule, 0, LEAST_START, LEAST_FINISH), 0);
}

// A side keeps its own pick while the other stands.
#[test]
fn other_side_stays(rt: HostRuntime) {
    let mut rule = Pair::new(Pair::new(Plain(Clock), Plain(Start)), Plain(Stamp));
    assert_eq!(rt; rule.count(), 3);
    assert!(rt; rule.pick(1));
    assert!(rt; rule.pick(2));
    assert_eq!(rt; rule.base(LEAST_START, LEAST_FINISH), 54_560);
    assert!(rt; rule.pick(0));
    assert_eq!(rt; rule.base(LEAST_START, LEAST_FINISH), 0);
}
