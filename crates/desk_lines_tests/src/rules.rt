//! The words of rules, as answers name them and `--rules` reads them.
use crate::facts::{holds_in, same_in};
use riichi_hand::{Rules, Switch, read_rules, rules_words};
use std::process::Abort;

/// What a user types, and how it is named.
const TYPED: [(&str, &str); 10] = [
    ("1", "1"),
    ("2", "2"),
    ("1+ura", "1"),
    ("1+raise+red-fives", "2"),
    ("2-raise", "1+red-fives"),
    ("2-red-fives-raise", "1"),
    ("1-ura+red-fives", "1+red-fives-ura"),
    (
        "2-ura+double-yakuman+add-yakuman",
        "2+add-yakuman+double-yakuman-ura",
    ),
    (
        "2-red-fives-counted-yakuman-double-wind-pair-kong-draw-fu-open-simples-open-pinfu-fu-ippatsu-ura",
        "1+raise-counted-yakuman-double-wind-pair-kong-draw-fu-open-simples-open-pinfu-fu-ippatsu-ura",
    ),
    ("2+blessing-of-man-ura", "2-ura+blessing-of-man"),
];

fn rules_of(rt: &impl Abort, words: &str) -> Rules {
    read_rules(words.as_bytes())
        .ok()
        .expect(rt, "words of rules")
}

#[test]
fn words_of_rules(rt: HostRuntime) {
    for &(typed, named) in &TYPED {
        let words = rules_words(rules_of(&rt, typed));
        same_in(&rt, &typed, words.as_str(), named);
    }
}

/// The rules that are on where the bits of a number are.
fn numbered(number: u32) -> Rules {
    let mut rules = Rules::One;
    let mut rest = number;
    for switch in Switch::ALL {
        rules = rules.with(switch, rest % 2 == 1);
        rest /= 2;
    }
    rules
}

#[test]
fn words_of_every_choice_of_rules_are_read_back(rt: HostRuntime) {
    for number in 0..4096 {
        let rules = numbered(number);
        let words = rules_words(rules);
        holds_in(&rt, &number, rules_of(&rt, words.as_str()) == rules);
    }
}
