//! The two tails of each order.
use tail_bounds::{pair_tail, single_tail};

#[test]
fn tails_of_the_orders(rt: HostRuntime) {
    assert_eq!(rt;
        [pair_tail(1), pair_tail(4), pair_tail(8)],
        [1_205_915_978_852, 198_874_331_312, 17_985_712_319]
    );
    assert_eq!(rt;
        [pair_tail(16), pair_tail(24), pair_tail(32)],
        [147_104_334, 1_203_161, 9842]
    );
    assert_eq!(rt;
        [single_tail(1), single_tail(4), single_tail(8)],
        [519_213_824_228, 54_674_586_730, 2_718_762_002]
    );
    assert_eq!(rt;
        [single_tail(16), single_tail(24), single_tail(32)],
        [6_722_683, 16_624, 42]
    );
}
