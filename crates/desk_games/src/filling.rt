//! A text of games in memory, answered into a room.
ghost use Rattle.std.specs.Prelude.{◌≡◌, ℕ, List, [], false, None};
ghost use Rattle.desk_lines.specs.Lines.{lines};
ghost use Rattle.desk_lines.specs.Telling.{with_line_feed};
ghost use Rattle.desk_lines.specs.declared.report.DeskReport.{DeskReport};
ghost use Rattle.desk_games.specs.Desks.{told_at_end};
ghost use Rattle.desk_games.specs.Filling.{FillsFront, FillsGames, FillsEnd};
ghost use Rattle.desk_games.specs.declared.form.GamesForm.TheVariants.{Answers};
ghost use Rattle.desk_games.specs.Replies.{Reply, IsReply};
ghost use Rattle.desk_games.specs.Tellers.{TellsAlike};
ghost use Rattle.desk_games.specs.Texts.{AnswersLines, PutsReply};

use crate::desk::GameDesk;
use crate::form::GamesForm;
use crate::games::Games;
use desk_lines::{Filled, LineKind, Outbox, next_line, put_at};
use riichi_hand::Rules;

/// Answers the lines of a text of games from a place on, as many as have room: each answer with a line feed behind it, and behind
/// the last line what is told of the end of the last game. The place counts bytes of the text: the lines before it were answered,
/// and are only played. The given rules are those for hands of a game that names none. It takes no memory.
///
/// `taken` is the place from which the next call goes on: behind the last line that is answered, or the length of the text and
/// one more where the end is told too. Where it stays below that and is the place that was given, the room is too small for what
/// comes next. From a place behind the text nothing is told.
pub fn fill_games(given: Rules, text: &[u8], from: usize, room: &mut [u8]) -> Filled
    ensures { FillsGames given text.now from room.old room.new result.taken result.filled }
{
    if from > text.len() {
        return Filled {
            taken: from,
            filled: 0,
        };
    }
    let mut games = Games::new(given, false, GamesForm::Answers);
    let mut outbox = Outbox::new();
    pass(&mut games, &text[..from], &mut outbox);
    let done = fill_lines(&mut games, &text[from..], room, &mut outbox);
    let taken = from + done.taken;
    if taken < text.len() {
        return Filled {
            taken,
            filled: done.filled,
        };
    }
    match fill_end(&games.into_desk(), room, done.filled, &mut outbox) {
        None => Filled {
            taken: text.len(),
            filled: done.filled,
        },
        Some(more) => Filled {
            taken: text.len() + 1,
            filled: done.filled + more,
        },
    }
}

/// Takes the lines of a text, and drops their answers.
fn pass(games: &mut Games, text: &[u8], outbox: &mut Outbox)
    requires numbered { games.old.is_numbered ≡ false }
    requires form { games.old.form ≡ Answers }
    ensures given { games.new.given ≡ games.old.given }
    ensures numbered { games.new.is_numbered ≡ false }
    ensures form { games.new.form ≡ Answers }
    ensures passed { (answers : List (List ℕ)) × (report : DeskReport)
        × AnswersLines false Answers games.old.given games.old.desk (lines text.now) answers report games.new.desk }
{
    let mut rest = text;
    while let Some((line, after)) = next_line(rest) {
        answer_alone(games, line, outbox);
        rest = after;
    }
}

/// Takes the lines of a text, and puts their answers into a room, as far as they fit there. The first line whose answer has no
/// room is taken too, and counts for no byte.
fn fill_lines(games: &mut Games, text: &[u8], room: &mut [u8], outbox: &mut Outbox) -> Filled
    requires numbered { games.old.is_numbered ≡ false }
    requires form { games.old.form ≡ Answers }
    ensures { FillsFront games.old.given games.old.desk
        text.now room.old room.new result.taken result.filled games.new.desk }
{
    let mut rest = text;
    let mut filled = 0;
    while let Some((line, after)) = next_line(rest) {
        answer_alone(games, line, outbox);
        let told = outbox.as_slice();
        if !put_at(room, filled, told) {
            return Filled {
                taken: text.len() - rest.len(),
                filled,
            };
        }
        filled += told.len();
        rest = after;
    }
    Filled {
        taken: text.len(),
        filled,
    }
}

/// Takes the next line, and leaves its answer alone in the outbox.
pub(crate) fn answer_alone(games: &mut Games, line: &[u8], outbox: &mut Outbox) -> LineKind
    ensures given { TellsAlike games.new games.old }
    ensures reply { (reply : Reply)
        × IsReply games.old.form games.old.given games.old.desk line.now reply
        × PutsReply None reply result [] outbox.new.bytes.items games.new.desk }
{
    outbox.clear();
    games.take(None, line, outbox)
}

/// Puts what is told behind the last line of a text behind what fills the front of a room, if it fits there: the bytes that it
/// takes.
fn fill_end(desk: &GameDesk, room: &mut [u8], filled: usize, outbox: &mut Outbox) -> Option<usize>
    ensures { FillsEnd (with_line_feed (told_at_end Answers desk.now))
        filled room.old room.new result }
{
    outbox.clear();
    desk.put_end(GamesForm::Answers, outbox);
    let end = outbox.as_slice();
    if put_at(room, filled, end) {
        Some(end.len())
    } else {
        None
    }
}
