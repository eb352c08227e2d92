use crate::{ceiling, floor, isqrt};

#[test]
fn a_quotient_is_rounded_down_or_up(rt: HostRuntime) {
    for (number, divisor, down, up) in [
        (0, 1, 0, 0),
        (6, 3, 2, 2),
        (7, 3, 2, 3),
        (8, 3, 2, 3),
        (1, u128::from(u64::MAX), 0, 1),
    ] {
        assert_eq!(rt; floor(number, divisor), down);
        assert_eq!(rt; ceiling(number, divisor), up);
    }
}

#[test]
fn a_root_is_rounded_down(rt: HostRuntime) {
    for root in [1, 2, 3, 1000, 35_000, 4_294_967_295, u128::from(u64::MAX)] {
        assert_eq!(rt; u128::from(isqrt(root * root)), root);
        assert_eq!(rt; u128::from(isqrt(root * root - 1)), root - 1);
    }
    assert_eq!(rt; isqrt(0), 0);
    assert_eq!(rt; isqrt(u128::MAX), u64::MAX);
}
