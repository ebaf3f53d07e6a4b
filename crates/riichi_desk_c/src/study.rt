//! The answer to a question of a player.
ghost use Rattle.std.specs.Prelude.{◌≡◌, ◌-◌, length, take};
ghost use Rattle.riichi_chances.specs.Graph.{most_hands_in};
ghost use Rattle.riichi_desk_c.specs.Studies.{PlacesStudied};

use crate::placing::place;
use desk_lines::Outbox;
use desk_study::{StudiesForm, answer_question};
use riichi_chances::{HandPlace, Rows};
use riichi_shape::{KeptRow, KeptUpper, LentMemo};
use riichi_worth::WorthRow;

/// What is answered where a hand may come to more hands than have room.
const TOO_FEW_PLACES: &[u8] = b"{\"answer\":\"refused\",\"code\":\"places\"}";

/// So many rows of suits are kept on the stack while a question is answered, and so many upper ranks.
const KEPT_ROWS: usize = 1_024;

const KEPT_UPPERS: usize = 16;

/// Answers one question of a player, as docs/NOTATION.md says them, by an object of JSON, which docs/study.schema.json describes: the
/// bytes that it takes, 0 where the line asks nothing. They are put at the start of the room if all of them fit there. For a
/// question of chances or of a worth the hands that a hand may come to stand in the places that are lent, each with its rows, or with its
/// worths; before the first call all of their bytes are 0. Where a hand may come to more of them, the answer is refused by the code `places`.
#[unsafe(no_mangle)]
pub extern "C" fn riichi_study(
    line: &[u8],
    places: &mut [HandPlace],
    rows: &mut [Rows],
    worths: &mut [WorthRow],
    room: &mut [u8],
) -> usize
    ensures { PlacesStudied line.now (most_hands_in (length places.old) (length rows.old))
        (most_hands_in (length places.old) (length worths.old)) result room.old room.new }
{
    let mut outbox = Outbox::new();
    let mut rows_kept = [KeptRow::of_nothing(); KEPT_ROWS];
    let mut uppers_kept = [KeptUpper::of_nothing(); KEPT_UPPERS];
    let mut kept = LentMemo::new(&mut rows_kept, &mut uppers_kept, &mut []);
    let form = StudiesForm::Objects;
    match answer_question(
        form,
        None,
        line,
        &mut outbox,
        &mut kept,
        places,
        rows,
        worths,
    ) {
        Ok(_) => place(without_end(outbox.as_slice()), room),
        Err(_) => place(TOO_FEW_PLACES, room),
    }
}

/// A text without its last byte, if it has one.
fn without_end(text: &[u8]) -> &[u8]
    ensures { result.now ≡ take (length text.now - 1) text.now }
{
    &text[..text.len().saturating_sub(1)]
}
