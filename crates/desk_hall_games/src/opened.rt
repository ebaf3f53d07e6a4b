//! The first line of a book's text.
ghost use Rattle.std.specs.Prelude.{MatchOption};
ghost use Rattle.riichi_game_text.specs.GameLines.{said_by};
ghost use Rattle.desk_hall_games.specs.Opened as spec;

use crate::position::GamePosition;
use riichi_game_text::{GameLine, is_odd, next_said, read_game};
use riichi_hand::Rules;
use riichi_tiles::split_at_mark;

/// A book's game before its first deal, and the text of its deals; none where the first line isn't ended or begins no game. The given
/// rules are those for hands of a game that names none.
pub fn open_book(given: Rules, text: &[u8]) -> Option<(GamePosition, &[u8])>
    ensures { MatchOption result (spec.OpensNone given text.now)
        (λ opened. spec.Opens given text.now opened.0 opened.1.now) }
{
    let Some((line, deals)) = split_at_mark(text, b'\n') else {
        return None;
    };
    match game_said(given, line) {
        None => None,
        Some(game) => Some((GamePosition::first(&game), deals)),
    }
}

/// What a line says that begins a game.
#[tactic(auto, unfolding(crate::specs::Opened::words_of_game))]
fn game_said(given: Rules, line: &[u8]) -> Option<GameLine>
    ensures { MatchOption result (spec.SaysNoBook given line.now)
        (λ game. spec.SaysBook given line.now (said_by game)) }
{
    if is_odd(line) {
        return None;
    }
    match next_said(line) {
        Some((first, words)) if first == b"game".as_slice() => read_game(given, words),
        _ => None,
    }
}
