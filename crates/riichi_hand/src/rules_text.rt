//! A text of rules, as the option `--rules` takes it, is read.
ghost use Rattle.std.specs.Prelude.{◌≡◌, ◌++◌, List, ℕ, true, false, IfOk, IfErr, IsOkAnd, MatchOption};
ghost use Rattle.riichi_hand.specs.Rules.{Rules, switch_word, with_switch};
ghost use Rattle.riichi_hand.specs.declared.switch.Switch.{Switch};
ghost use Rattle.riichi_hand.specs.RulesText.{NamesRules, IsWrongAt, Profile, profile_number, profile_rules};
ghost use Rattle.riichi_hand.specs.RulesText as spec;

use crate::rules::Rules;
use crate::switch::Switch;

/// A text that names no rules: where its first wrong word stands, in bytes from 0.
#[derive(Clone, Copy, Debug, PartialEq, Eq)]
pub struct RulesFault {
    pub place: usize,
}

/// The rules that a text such as `2` or `1+red-fives-ura` names: the number of a profile, and behind it each rule that is turned
/// on or off. Of a rule that stands there twice the last one counts.
pub fn read_rules(text: &[u8]) -> Result<Rules, RulesFault>
    ensures ok { IfOk result (λ rules. NamesRules text.now rules) }
    ensures only { (rules : Rules) → NamesRules text.now rules
        → IsOkAnd result (λ read. read ≡ rules) }
    ensures fault { IfErr result (λ fault. IsWrongAt text.now fault.place) }
{
    let Some((mut rules, mut rest)) = profile_before(text) else {
        return Err(RulesFault { place: 0 });
    };
    while let Some((sign, words)) = rest.split_first() {
        let Some((switch, behind)) = switch_before(words) else {
            return Err(RulesFault {
                place: text.len() - words.len(),
            });
        };
        rules = rules.with(switch, *sign == b'+');
        rest = behind;
    }
    Ok(rules)
}

/// The profile whose number a text begins with, and what stands behind it.
fn profile_before(text: &[u8]) -> Option<(Rules, &[u8])>
    ensures { MatchOption result
        ((profile : Profile) (behind : List ℕ) → text.now ≡ profile_number profile ++ behind
        → spec.ends_word behind ≡ false)
        (λ cut. (profile : Profile) × (text.now ≡ profile_number profile ++ cut.1.now)
        × (spec.ends_word cut.1.now ≡ true) × (cut.0 ≡ profile_rules profile)) }
{
    let (number, behind) = text.split_first()?;
    let rules = match *number {
        b'1' => Rules::One,
        b'2' => Rules::Two,
        _ => return None,
    };
    if ends_word(behind) {
        Some((rules, behind))
    } else {
        None
    }
}

/// The rule whose word a text begins with, and what stands behind it.
fn switch_before(text: &[u8]) -> Option<(Switch, &[u8])>
    ensures { MatchOption result
        ((which : Switch) (behind : List ℕ) → text.now ≡ switch_word which ++ behind
        → spec.ends_word behind ≡ false)
        (λ cut. (text.now ≡ switch_word cut.0 ++ cut.1.now) × (spec.ends_word cut.1.now ≡ true)) }
{
    for switch in &Switch::ALL {
        if let Some(behind) = behind_word(text, *switch) {
            return Some((*switch, behind));
        }
    }
    None
}

/// What stands behind the word of a rule, where a text begins with it.
fn behind_word(text: &[u8], switch: Switch) -> Option<&[u8]>
    ensures { MatchOption result
        ((behind : List ℕ) → text.now ≡ switch_word switch ++ behind → spec.ends_word behind ≡ false)
        (λ behind. (text.now ≡ switch_word switch ++ behind.now) × (spec.ends_word behind.now ≡ true)) }
{
    match text.strip_prefix(switch.word().as_bytes()) {
        Some(behind) if ends_word(behind) => Some(behind),
        _ => None,
    }
}

/// Whether a word ends before this text: where it is empty, or begins with a sign.
fn ends_word(behind: &[u8]) -> bool
    ensures { result ≡ spec.ends_word behind.now }
{
    match behind.first() {
        None => true,
        Some(byte) => *byte == b'+' || *byte == b'-',
    }
}
