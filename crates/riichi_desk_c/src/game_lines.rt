//! A text of games, many lines by one call.
ghost use Rattle.riichi_desk_c.specs.GameLines.{FillsGamesUnder};

use crate::rules_numbered;
use desk_games::fill_games;

/// Answers the lines of a text of games from a place on, as many as have room, each answer with a line feed behind it, and behind
/// the last line what is told of the end of the last game: the bytes that these fill. The place `from` counts bytes of the text,
/// up to which lines were answered; those are only played. The rules of this number are those for hands of a game that names
/// none. `taken` is set to the place from which the next call goes on, or to the length of the text and one more where all is
/// told. Under a number that is none of any rules nothing is answered, and `taken` is set to `from`.
#[unsafe(no_mangle)]
pub extern "C" fn riichi_game_lines(
    rules: u32,
    text: &[u8],
    from: usize,
    room: &mut [u8],
    taken: &mut usize,
) -> usize
    ensures { FillsGamesUnder rules text.now from room.old room.new taken.new result }
{
    match rules_numbered(rules) {
        Some(rules) => {
            let done = fill_games(rules, text, from, room);
            *taken = done.taken;
            done.filled
        }
        None => {
            *taken = from;
            0
        }
    }
}
