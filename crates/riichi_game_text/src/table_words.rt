//! The rules that the words of a line `game` say.
ghost use Rattle.std.specs.Prelude.{◌≡◌, None, Some, MatchOption, option_map, codes, Option};
ghost use Rattle.riichi_hand.specs.Rules.{Rules};
ghost use Rattle.riichi_game_text.specs.Words.{said_in, rule_words};
ghost use Rattle.riichi_game_text.specs.TableWords as spec;

use crate::numbers::read_from_one;
use crate::setting::Setting;
use crate::values::{change, read_preset};
use crate::words::next_rule_word;
use riichi_hand::{Rules, read_rules};
use riichi_table::TableRules;
use riichi_tiles::split_at_mark;

/// The rules that the words with `=` of a text say; those for hands are the given ones where no word names them. None where a word stands twice, is no word or has a value that can't be.
#[tactic(auto, unfolding(crate::specs::TableWords::table_rules_of))]
pub(crate) fn read_table_rules(given: Rules, text: &[u8]) -> Option<TableRules>
    ensures { let words = rule_words (said_in text.now) in
        (hand : Option Rules) × spec.IsHandRules given (spec.first_value (codes "rules") words) hand
        × (result ≡ spec.table_rules_of hand words) }
{
    let hand = hand_rules(given, first_value(text, b"rules"));
    rules_with(hand, text)
}

/// What the words say, by the rules for hands.
#[tactic(auto, using(crate::proofs::ChangeLemmas::none_stays), unfolding(crate::specs::TableWords::table_rules_of))]
fn rules_with(hand: Option<Rules>, text: &[u8]) -> Option<TableRules>
    ensures { result ≡ spec.table_rules_of hand (rule_words (said_in text.now)) }
{
    if has_twice(text) {
        return None;
    }
    let mut rules = read_first_rules(hand, text)?;
    change_by_all(&mut rules, text)?;
    if rules.fault().is_some() {
        None
    } else {
        Some(rules)
    }
}

/// The rules before the other words change them.
fn read_first_rules(hand: Option<Rules>, text: &[u8]) -> Option<TableRules>
    ensures { result ≡ spec.with_hand hand (spec.preset_of (rule_words (said_in text.now))) }
{
    let hand = hand?;
    let preset = preset(first_value(text, b"table"))?;
    Some(TableRules { hand, ..preset })
}

fn preset(value: Option<&[u8]>) -> Option<TableRules>
    ensures { result ≡ spec.preset_if_said (option_map (λ value. value.now) value.entry) }
{
    match value {
        None => Some(TableRules::club()),
        Some(value) => read_preset(value),
    }
}

/// The rules for hands that a value names, or the given ones.
fn hand_rules(given: Rules, value: Option<&[u8]>) -> Option<Rules>
    ensures { spec.IsHandRules given (option_map (λ value. value.now) value.entry) result }
{
    match value {
        None => Some(given),
        Some(value) => named_rules(value),
    }
}

fn named_rules(value: &[u8]) -> Option<Rules>
    ensures { spec.AreNamed value.now result }
{
    match read_rules(value) {
        Ok(rules) => Some(rules),
        Err(_) => None,
    }
}

/// Changes what each word says.
#[tactic(auto, using(crate::proofs::ChangeLemmas::none_stays))]
fn change_by_all(rules: &mut TableRules, text: &[u8]) -> Option<()>
    ensures { let changed = spec.change_by_all (rule_words (said_in text.now)) (Some rules.old) in
        MatchOption result (changed ≡ None) (λ _. changed ≡ Some rules.new) }
{
    let mut rest = text;
    while let Some((word, after)) = next_rule_word(rest) {
        change_by_word(rules, word)?;
        rest = after;
    }
    Some(())
}

fn change_by_word(rules: &mut TableRules, word: &[u8]) -> Option<()>
    ensures { let changed = spec.change_by_word word.now (Some rules.old) in
        MatchOption result (changed ≡ None) (λ _. changed ≡ Some rules.new) }
{
    let setting = Setting::read(key_of(word))?;
    change(rules, setting, value_of_word(word))
}

/// Whether a word stands twice.
fn has_twice(text: &[u8]) -> bool
    ensures { result ≡ spec.has_twice (rule_words (said_in text.now)) }
{
    let mut rest = text;
    while let Some((word, after)) = next_rule_word(rest) {
        if first_value(after, key_of(word)).is_some() {
            return true;
        }
        rest = after;
    }
    false
}

/// The value of the first word with a key.
fn first_value<'a>(text: &'a [u8], key: &[u8]) -> Option<&'a [u8]>
    ensures { option_map (λ value. value.now) result
        ≡ spec.first_value key.now (rule_words (said_in text.now)) }
{
    let mut rest = text;
    while let Some((word, after)) = next_rule_word(rest) {
        if key_of(word) == key {
            return Some(value_of_word(word));
        }
        rest = after;
    }
    None
}

pub(crate) fn key_of(word: &[u8]) -> &[u8]
    ensures { result.now ≡ spec.key_of word.now }
{
    match split_at_mark(word, b'=') {
        None => &[],
        Some((key, _)) => key,
    }
}

pub(crate) fn value_of_word(word: &[u8]) -> &[u8]
    ensures { result.now ≡ spec.value_of_word word.now }
{
    match split_at_mark(word, b'=') {
        None => &[],
        Some((_, value)) => value,
    }
}

/// The number of a word of a tournament.
pub(crate) fn number_of_word(text: &[u8], key: &[u8]) -> Option<u32>
    ensures { let words = rule_words (said_in text.now) in
        result ≡ spec.number_if_said (spec.first_value key.now words) }
{
    let value = first_value(text, key)?;
    read_from_one(value)
}
