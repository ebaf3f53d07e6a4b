//! A text of games over streams.
ghost use Rattle.std.specs.Prelude.{◌≡◌, false, IfOk, IsErrOf};
ghost use Rattle.desk_lines.specs.Streams.{Writes, FailsOrGoesOn, IsReadWithin};
ghost use Rattle.desk_lines.specs.Telling.{with_line_feed};
ghost use Rattle.desk_games.specs.Desks.{told_at_end};
ghost use Rattle.desk_games.specs.declared.form.GamesForm.TheVariants.{Answers};
ghost use Rattle.desk_games.specs.declared.desk.GameDesk.TheVariants.{NoGame};
ghost use Rattle.desk_games.specs.Streams.{TellsGames, TellsEnded, TellsFront};
ghost use Rattle.desk_games.specs.Texts.{AnswersLines};

use crate::desk::GameDesk;
use crate::form::GamesForm;
use crate::games::Games;
use crate::report::GamesReport;
use desk_io::{Sink, Source};
use desk_lines::{DeskFault, answer_lines, write_all};
use riichi_hand::Rules;
use riichi_shape::FreshRows;

/// Answers the lines of a text of games that a reader gives, and behind the last line tells how the last game ended or stands. The
/// given rules are those for hands of a game that names none. It reads and writes in large pieces; the answers to all lines that have
/// ended are written before it reads again. It takes no memory, and has no limit on the number of lines.
pub fn games_text<R: Source, W: Sink>(
    given: Rules,
    reader: &mut R,
    writer: &mut W,
) -> Result<GamesReport, DeskFault>
    ensures ok { IfOk result (λ report.
        TellsGames ⟦<R as Source>⟧ ⟦<W as Sink>⟧ Answers (AnswersLines false Answers given NoGame) reader.old reader.new writer.old writer.new report.counts report.desk) }

    // A read failed, or there were too many.
    ensures read_failed { IsErrOf result DeskFault.Read
        → FailsOrGoesOn ⟦<R as Source>⟧ reader.old reader.new
        × TellsEnded ⟦<R as Source>⟧ ⟦<W as Sink>⟧ Answers (AnswersLines false Answers given NoGame) reader.old reader.new writer.old writer.new }

    ensures write_failed { IsErrOf result DeskFault.Write
        → TellsFront ⟦<R as Source>⟧ ⟦<W as Sink>⟧ Answers (AnswersLines false Answers given NoGame) reader.old reader.new writer.old writer.new }
    ensures no_memory { IsErrOf result DeskFault.Memory → ⊥ }
    // A failed read is told as such, whatever comes after it. So what is said of a failed read is so before each read.
    ensures told_as_read { (IsErrOf result DeskFault.Read → ⊥)
        → R.failures reader.new ≡ R.failures reader.old }
    ensures reads { IsReadWithin ⟦<R as Source>⟧ reader.old reader.new }
{
    games_text_with(given, false, GamesForm::Answers, reader, writer)
}

/// The same in a form: below each answer it may say why it is so. And answers may be numbered: each then stands behind the number of
/// its line and a colon. All lines are counted, from 1. What is told of the end of a game answers no line, and has no number.
pub fn games_text_with<R: Source, W: Sink>(
    given: Rules,
    is_numbered: bool,
    form: GamesForm,
    reader: &mut R,
    writer: &mut W,
) -> Result<GamesReport, DeskFault>
    ensures ok { IfOk result (λ report.
        TellsGames ⟦<R as Source>⟧ ⟦<W as Sink>⟧ form (AnswersLines is_numbered form given NoGame) reader.old reader.new writer.old writer.new report.counts report.desk) }

    // A read failed, or there were too many.
    ensures read_failed { IsErrOf result DeskFault.Read
        → FailsOrGoesOn ⟦<R as Source>⟧ reader.old reader.new
        × TellsEnded ⟦<R as Source>⟧ ⟦<W as Sink>⟧ form (AnswersLines is_numbered form given NoGame) reader.old reader.new writer.old writer.new }

    ensures write_failed { IsErrOf result DeskFault.Write
        → TellsFront ⟦<R as Source>⟧ ⟦<W as Sink>⟧ form (AnswersLines is_numbered form given NoGame) reader.old reader.new writer.old writer.new }
    ensures no_memory { IsErrOf result DeskFault.Memory → ⊥ }
    // A failed read is told as such, whatever comes after it. So what is said of a failed read is so before each read.
    ensures told_as_read { (IsErrOf result DeskFault.Read → ⊥)
        → R.failures reader.new ≡ R.failures reader.old }
    ensures reads { IsReadWithin ⟦<R as Source>⟧ reader.old reader.new }
{
    let mut games = Games::new(given, is_numbered, form);
    let counts = answer_lines(&mut games, &mut FreshRows, reader, writer)?;
    let desk = games.into_desk();
    write_end(form, &desk, writer)?;
    Ok(GamesReport { counts, desk })
}

/// Writes what is told behind the last line of a text of games.
pub fn write_end<W: Sink>(form: GamesForm, desk: &GameDesk, writer: &mut W) -> Result<(), DeskFault>
    ensures { Writes ⟦<W as Sink>⟧
        writer.old writer.new result (with_line_feed (told_at_end form desk.now)) }
{
    match desk {
        GameDesk::Game(game) => write_all(writer, game.ended_text(form).as_str().as_bytes()),
        _ => Ok(()),
    }
}
