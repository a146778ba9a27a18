use crate::{count_in_threads, meet_both_ways};
use std::process::Abort;

#[test]
fn eight_threads_lose_no_turn(rt: HostRuntime) {
    let outcome = count_in_threads(&rt, rt.alloc(), 8, 10_000).expect(&rt, "memory");
    assert_eq!(rt; outcome.count, 80_000);
    // Each number from 0 on was returned once, and to each thread in rising order.
    assert_eq!(rt; outcome.sum, 80_000 * 79_999 / 2);
    assert_eq!(rt; outcome.falls, 0);
}

#[test]
fn two_seats_meet_in_both_orders(rt: HostRuntime) {
    let meeting = meet_both_ways(&rt, rt.alloc()).expect(&rt, "memory");
    assert_eq!(rt; meeting.numbers, [0, 1]);
    assert_eq!(rt; meeting.told, [0, 1, 2, 3]);
    assert_eq!(rt; meeting.count, 4);
}
