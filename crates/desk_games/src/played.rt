//! A text of games without its answers.
ghost use Rattle.std.specs.Prelude.{◌≡◌, ℕ, List, false, Err, IfOk, IsErrOf};
ghost use Rattle.desk_lines.specs.declared.fault.DeskFault.{DeskFault};
ghost use Rattle.desk_lines.specs.declared.report.DeskReport.{DeskReport};
ghost use Rattle.desk_lines.specs.Lines.{lines};
ghost use Rattle.desk_lines.specs.Streams.{GivesAll, FailsOrGoesOn, IsReadWithin};
ghost use Rattle.desk_games.specs.declared.desk.GameDesk.TheVariants.{NoGame};
ghost use Rattle.desk_games.specs.declared.form.GamesForm.TheVariants.{Answers};
ghost use Rattle.desk_games.specs.Texts.{AnswersLines};

use crate::desk::GameDesk;
use crate::text::games_text;
use crate::unwritten::Unwritten;
use desk_io::Source;
use desk_lines::DeskFault;
use riichi_hand::Rules;

/// The text of games behind the last line that a reader gives: what its lines say, without their answers. The given rules are those
/// for hands of a game that names none. It takes no memory.
pub fn games_played<R: Source>(given: Rules, reader: &mut R) -> Result<GameDesk, DeskFault>
    ensures ok { IfOk result (λ desk.
        (text : List ℕ) × (answers : List (List ℕ)) × (report : DeskReport)
        × GivesAll ⟦<R as Source>⟧ reader.old reader.new text
        × AnswersLines false Answers given NoGame (lines text) answers report desk) }

    // A read failed, or there were too many.
    ensures read_failed { IsErrOf result DeskFault.Read
        → FailsOrGoesOn ⟦<R as Source>⟧ reader.old reader.new }
    ensures only { (fault : DeskFault) → result ≡ Err fault → fault ≡ DeskFault.Read }
    ensures reads { IsReadWithin ⟦<R as Source>⟧ reader.old reader.new }
{
    match games_text(given, reader, &mut Unwritten::new()) {
        Ok(report) => Ok(report.desk),
        Err(fault) => Err(fault),
    }
}
