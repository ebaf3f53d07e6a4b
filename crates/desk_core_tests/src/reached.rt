//! How far answers are, as a terminal shows it.
use crate::facts::{same, same_in};
use desk_io::{Reached, lines_a_second, seconds_left, share_done};
use std::test::Fail;

/// Lines, thousandths of a second, what is done, the whole, and what is shown of it.
const SHOWN: [(u64, u64, u64, Option<u64>, &str); 7] = [
    (0, 1200, 0, Some(10), "0 %, 0 lines a second"),
    (900, 2000, 1, Some(3), "33 %, 450 lines a second, 4 s left"),
    (
        100_000,
        1000,
        1,
        Some(126),
        "0 %, 100000 lines a second, 2 min 5 s left",
    ),
    (
        100_000,
        1000,
        1,
        Some(61),
        "1 %, 100000 lines a second, 1 min 0 s left",
    ),
    (7, 1999, 60, Some(60), "100 %, 3 lines a second, 0 s left"),
    (7, 1999, 61, Some(60), "100 %, 3 lines a second, 0 s left"),
    (
        1_234_567,
        1001,
        5,
        None,
        "1234567 lines, 1233333 lines a second",
    ),
];

#[test]
fn what_is_shown(rt: HostRuntime) -> Result<(), Fail> {
    for &(lines, millis, done, whole, text) in &SHOWN {
        let reached = Reached {
            lines,
            millis,
            done,
            whole,
        };
        let shown = format!(in rt.alloc(); "{reached}")?;
        same_in(&rt, &text, shown.as_str(), text);
    }
    Ok(())
}

/// Of nothing all is done; nothing wraps.
#[test]
fn the_greatest_numbers(rt: HostRuntime) {
    same(&rt, share_done(0, 0), 100);
    same(&rt, share_done(u64::MAX, u64::MAX), 100);
    same(&rt, share_done(u64::MAX - 1, u64::MAX), 99);
    same(&rt, lines_a_second(u64::MAX, 0), 0);
    same(&rt, lines_a_second(u64::MAX, 1), u64::MAX);
    same(&rt, lines_a_second(u64::MAX, 1000), u64::MAX);
    same(&rt, seconds_left(0, 5, 1000), None);
    same(&rt, seconds_left(1, u64::MAX, u64::MAX), Some(u64::MAX));
    same(&rt, seconds_left(u64::MAX, u64::MAX, u64::MAX), Some(0));
}
