//! The line that begins a game.
ghost use Rattle.std.specs.Prelude.{◌≡◌, None, Some, MatchOption, Option};
ghost use Rattle.riichi_hand.specs.Rules.{Rules};
ghost use Rattle.riichi_game_text.specs.Words.{said_in};
ghost use Rattle.riichi_game_text.specs.TableWords.{IsHandRules};
ghost use Rattle.riichi_game_text.specs.GameLines as spec;

use crate::name::{Names, read_names};
use crate::table_words::{number_of_word, read_table_rules};
use crate::words::from_rule_word;
use riichi_hand::Rules;
use riichi_table::TableRules;

/// What the line says that begins a game.
#[derive(Clone, Copy)]
pub struct GameLine {
    pub names: Names,
    pub rules: TableRules,
    /// The session of a tournament, where it is said.
    pub session: Option<u32>,
    /// The table of a tournament, where it is said.
    pub at: Option<u32>,
}

/// What the words behind `game` say; the rules for hands are the given ones where no word names them. None where a name, a word or a value can't be, a word stands twice, or there are other than
/// four names or none.
pub fn read_game(given: Rules, text: &[u8]) -> Option<GameLine>
    ensures { let words = said_in text.now in
        (hand : Option Rules) × IsHandRules given (spec.hand_rules_word words) hand
        × MatchOption result (spec.game_of hand words ≡ None)
        (λ game. spec.game_of hand words ≡ Some (spec.said_by game)) }
{
    let said = from_rule_word(text);
    let rules = read_table_rules(given, said);
    match (read_names(text), rules) {
        (Some(names), Some(rules)) => Some(GameLine {
            names,
            rules,
            session: number_of_word(said, b"session"),
            at: number_of_word(said, b"at"),
        }),
        _ => None,
    }
}
