//! The words of rules, as the option `--rules` takes them.
ghost use Rattle.std.specs.Prelude.{◌≡◌, ◌+◌, ◌*◌, ◌≤◌, ◌++◌, length};
ghost use Rattle.std.specs.List.{flat_map};
ghost use Rattle.arrayvec.specs.ArrayString.{array_string_len};
ghost use Rattle.riichi_hand.specs.RulesWords as spec;

use crate::rules::Rules;
use crate::switch::Switch;
use arrayvec::ArrayString;

impl Rules {
    /// Whether these are the rules of a house, and neither profile.
    pub fn is_house(self) -> bool
        ensures { result ≡ spec.is_house self }
    {
        self != Rules::One && self != Rules::Two
    }
}

/// The bytes of the longest change: a sign and the word of a rule.
const MOST_CHANGE: usize = "+".len() + Switch::MOST_WORD;

/// The bytes of the longest words of rules: a profile, and a change of each rule.
pub const MOST_RULES_WORDS: usize = "1".len() + Switch::COUNT * MOST_CHANGE;

/// The words of rules, as the option `--rules` takes them: `1`, `2`, or one of these and behind it each rule that is another than
/// there, as `1+red-fives-ura`.
pub fn rules_words(rules: Rules) -> ArrayString<MOST_RULES_WORDS>
    ensures { result.bytes ≡ spec.rules_words rules }
{
    let mut text = ArrayString::new();
    push_rules(&mut text, rules);
    text
}

/// Writes the words of the rules of a house between two others; nothing where the rules are a profile.
#[tactic(auto, unfolding(crate::specs::RulesWords::house_words))]
pub fn push_house_words<const ROOM: usize>(
    text: &mut ArrayString<ROOM>,
    before: &str,
    rules: Rules,
    after: &str,
)
    requires { array_string_len text.old + length before.now + MOST_RULES_WORDS + length after.now
        ≤ ROOM }
    ensures bytes { text.new.bytes ≡ text.old.bytes ++ spec.house_words before.now after.now rules }
    ensures len { array_string_len text.new
        ≤ array_string_len text.old + length before.now + MOST_RULES_WORDS + length after.now }
{
    if rules.is_house() {
        text.push_str(before);
        push_rules(text, rules);
        text.push_str(after);
    }
}

#[tactic(auto, unfolding(crate::specs::RulesWords::rules_words))]
fn push_rules<const ROOM: usize>(text: &mut ArrayString<ROOM>, rules: Rules)
    requires { array_string_len text.old + MOST_RULES_WORDS ≤ ROOM }
    ensures bytes { text.new.bytes ≡ text.old.bytes ++ spec.rules_words rules }
    ensures len { array_string_len text.new ≤ array_string_len text.old + MOST_RULES_WORDS }
{
    if rules.has(Switch::RedFives) && rules.has(Switch::Raise) {
        push_changed(text, "2", Rules::Two, rules);
    } else {
        push_changed(text, "1", Rules::One, rules);
    }
}

/// The number of a profile, and what is changed of it.
#[tactic(auto, unfolding(crate::specs::RulesWords::changed_words))]
fn push_changed<const ROOM: usize>(
    text: &mut ArrayString<ROOM>,
    number: &str,
    profile: Rules,
    rules: Rules,
)
    requires one { length number.now ≤ 1 }
    requires room { array_string_len text.old + MOST_RULES_WORDS ≤ ROOM }
    ensures bytes { text.new.bytes
        ≡ text.old.bytes ++ spec.changed_words number.now profile rules }
    ensures len { array_string_len text.new ≤ array_string_len text.old + MOST_RULES_WORDS }
{
    text.push_str(number);
    push_changes(text, profile, rules, &Switch::ALL);
}

fn push_changes<const ROOM: usize>(
    text: &mut ArrayString<ROOM>,
    profile: Rules,
    rules: Rules,
    switches: &[Switch],
)
    requires { array_string_len text.old + length switches.now * MOST_CHANGE ≤ ROOM }
    ensures bytes { text.new.bytes
        ≡ text.old.bytes ++ flat_map (spec.change_words profile rules) switches.now }
    ensures len { array_string_len text.new
        ≤ array_string_len text.old + length switches.now * MOST_CHANGE }
{
    for switch in switches {
        push_change(text, profile, rules, *switch);
    }
}

/// A rule that is another than in the profile, behind its sign.
#[tactic(auto, using(crate::proofs::ShortWords::short_word), unfolding(crate::specs::RulesWords::change_words))]
fn push_change<const ROOM: usize>(
    text: &mut ArrayString<ROOM>,
    profile: Rules,
    rules: Rules,
    switch: Switch,
)
    requires { array_string_len text.old + MOST_CHANGE ≤ ROOM }
    ensures bytes { text.new.bytes
        ≡ text.old.bytes ++ spec.change_words profile rules switch }
    ensures len { array_string_len text.new ≤ array_string_len text.old + MOST_CHANGE }
{
    let is_on = rules.has(switch);
    if is_on != profile.has(switch) {
        text.push_str(sign(is_on));
        text.push_str(switch.word());
    }
}

fn sign(is_on: bool) -> &'static str
    ensures value { result.now ≡ spec.sign is_on }
    ensures short { length result.now ≤ 1 }
{
    if is_on { "+" } else { "-" }
}
