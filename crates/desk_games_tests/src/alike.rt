//! Names that may be one player's.
use crate::facts::holds_in;
use riichi_standings_text::are_alike;

const ALIKE: [(&str, &str); 7] = [
    ("Bo", "bo"),
    ("Bo", "Bob"),
    ("Bob", "Bo"),
    ("Anna", "Anne"),
    ("aki", "kaki"),
    ("Zoé", "Zoe"),
    ("Li", "Lui"),
];

const OTHERS: [(&str, &str); 6] = [
    ("Bo", "Bo"),
    ("Anna", "Bo"),
    ("P1", "P2"),
    ("P1", "P"),
    ("Bo", "Bobby"),
    ("Anna", "Nana"),
];

#[test]
fn names_that_differ_little(rt: HostRuntime) {
    for &(one, other) in &ALIKE {
        holds_in(&rt, &one, are_alike(one, other));
        holds_in(&rt, &other, are_alike(other, one));
    }
    for &(one, other) in &OTHERS {
        holds_in(&rt, &one, one == other || !are_alike(one, other));
    }
}
