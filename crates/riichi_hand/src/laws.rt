//! A law over the definitions alone: a text names one choice of rules.
ghost use Rattle.std.specs.Prelude.{◌≡◌, List, ℕ, ◌<◌, ◌^◌};
ghost use Rattle.riichi_hand.specs.Rules.{Rules};
ghost use Rattle.riichi_hand.specs.RulesText.{NamesRules};
ghost use Rattle.riichi_hand.specs.RulesWords.{rules_words};

use crate::switch::Switch;

/// The words that are printed for rules name these rules, and no text names two choices. So what is printed is read as it was
/// meant, and what was read is printed as a text that reads the same.
#[tactic(auto, using(crate::proofs::RulesTexts::printed_names))]
pub fn printed_rules_are_read_back()
    ensures printed { (rules : Rules) → rules < 2 ^ Switch.COUNT
        → NamesRules (rules_words rules) rules }
    ensures one { (text : List ℕ) (rules other : Rules) → NamesRules text rules
        → NamesRules text other → rules ≡ other }
{}
