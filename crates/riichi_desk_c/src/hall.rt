//! A message to a table's book.
ghost use Rattle.std.specs.Prelude.{MatchOption};
ghost use Rattle.desk_hall.specs.Decided.{HandsIn, IsJudged, Withdraws};
ghost use Rattle.desk_hall.specs.Fronts.{first_front};
ghost use Rattle.desk_hall.specs.Messages.{request_in};
ghost use Rattle.desk_hall.specs.Playing.{MeetsFault};
ghost use Rattle.desk_hall_games.specs.Positions.{reads_entry, same_outcome};
ghost use Rattle.riichi_desk_c.specs.Hall as spec;

use crate::placing::place;
use crate::rules_numbered;
use desk_hall::{Asked, Judged, hand_in, withdraw};
use desk_hall_games::{GamePosition, JudgedRow, open_book, push_answer};
use riichi_hand::Rules;
use riichi_text::AnswerText;

/// Says what a line comes to that is handed in at a number, by the text of the table's book: the bytes that the answer takes. They are
/// put at the start of the room if all of them fit there. The rules of this number are those for hands of a game that names none.
/// `judged` is set to what it came to, and where; where the text is no book's, or the number that of no rules, to nothing.
#[unsafe(no_mangle)]
pub extern "C" fn riichi_hall_hand_in(
    rules: u32,
    book: &[u8],
    number: u64,
    line: &[u8],
    room: &mut [u8],
    judged: &mut JudgedRow,
) -> usize
    ensures { spec.TellsHall rules book.now number (HandsIn line.now)
        room.old room.new result judged.new }
{
    tell(rules, book, number, Asked::Line(line), room, judged)
}

/// Says so what the withdrawal of a number does.
#[unsafe(no_mangle)]
pub extern "C" fn riichi_hall_withdraw(
    rules: u32,
    book: &[u8],
    number: u64,
    room: &mut [u8],
    judged: &mut JudgedRow,
) -> usize
    ensures { spec.TellsHall rules book.now number Withdraws
        room.old room.new result judged.new }
{
    tell(rules, book, number, Asked::Withdrawal, room, judged)
}

fn tell(
    rules: u32,
    book: &[u8],
    number: u64,
    asked: Asked<'_>,
    room: &mut [u8],
    row: &mut JudgedRow,
) -> usize
    ensures { spec.TellsHall rules book.now number (request_in asked.entry)
        room.old room.new result row.new }
{
    let Some(given) = rules_numbered(rules) else {
        return tell_nothing(b"refused rules", room, row);
    };
    tell_of_book(given, book, number, asked, room, row)
}

fn tell_of_book(
    given: Rules,
    book: &[u8],
    number: u64,
    asked: Asked<'_>,
    room: &mut [u8],
    row: &mut JudgedRow,
) -> usize
    ensures { spec.TellsBook given book.now number (request_in asked.entry)
        room.old room.new result row.new }
{
    let Some((start, deals)) = open_book(given, book) else {
        return tell_nothing(b"refused book", room, row);
    };
    let Some(judged) = judged_by(&start, deals, number, asked) else {
        return tell_nothing(b"refused book", room, row);
    };
    *row = JudgedRow::of(&judged, book.len() - deals.len());
    let mut text = AnswerText::new();
    push_answer(&mut text, number, asked, &judged);
    place(text.as_str().as_bytes(), room)
}

/// Nothing is decided, and these words say why.
fn tell_nothing(words: &[u8], room: &mut [u8], row: &mut JudgedRow) -> usize
    ensures { spec.TellsNone words.now room.old room.new result row.new }
{
    *row = JudgedRow::of_nothing();
    place(words, room)
}

fn judged_by(
    start: &GamePosition,
    deals: &[u8],
    number: u64,
    asked: Asked<'_>,
) -> Option<Judged<GamePosition>>
    ensures { MatchOption result (MeetsFault reads_entry (first_front start.now) deals.now)
        (λ judged. IsJudged reads_entry same_outcome start.now deals.now number (request_in asked.entry) judged) }
{
    match asked {
        Asked::Line(line) => hand_in(start, deals, number, line),
        Asked::Withdrawal => withdraw(start, deals, number),
    }
}
