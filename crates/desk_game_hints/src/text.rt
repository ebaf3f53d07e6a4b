//! A text of games over streams, with hints.
ghost use Rattle.std.specs.Prelude.{◌≡◌, IfOk, IsErrOf};
ghost use Rattle.desk_lines.specs.Streams.{FailsOrGoesOn, IsReadWithin};
ghost use Rattle.desk_games.specs.declared.desk.GameDesk.TheVariants.{NoGame};
ghost use Rattle.desk_games.specs.Streams.{TellsGames, TellsEnded, TellsFront};
ghost use Rattle.desk_game_hints.specs.Hinted.{HintsLines};

use crate::hinted::HintedGames;
use desk_games::{GamesForm, GamesReport, write_end};
use desk_io::{Sink, Source};
use desk_lines::{DeskFault, answer_lines};
use riichi_hand::Rules;
use riichi_shape::FreshRows;

/// Answers a text of games as `desk_games::games_text_with` does, and says below each refused line what is wrong, and
/// where one is found a line to try, in lines that begin with two spaces. Without these the text is that of `games_text_with`.
pub fn hinted_games_text<R: Source, W: Sink>(
    given: Rules,
    is_numbered: bool,
    form: GamesForm,
    reader: &mut R,
    writer: &mut W,
) -> Result<GamesReport, DeskFault>
    ensures ok { IfOk result (λ report.
        TellsGames ⟦<R as Source>⟧ ⟦<W as Sink>⟧ form (HintsLines is_numbered form given NoGame) reader.old reader.new writer.old writer.new report.counts report.desk) }

    // A read failed, or there were too many.
    ensures read_failed { IsErrOf result DeskFault.Read
        → FailsOrGoesOn ⟦<R as Source>⟧ reader.old reader.new
        × TellsEnded ⟦<R as Source>⟧ ⟦<W as Sink>⟧ form (HintsLines is_numbered form given NoGame) reader.old reader.new writer.old writer.new }

    ensures write_failed { IsErrOf result DeskFault.Write
        → TellsFront ⟦<R as Source>⟧ ⟦<W as Sink>⟧ form (HintsLines is_numbered form given NoGame) reader.old reader.new writer.old writer.new }
    ensures no_memory { IsErrOf result DeskFault.Memory → ⊥ }
    // A failed read is told as such, whatever comes after it. So what is said of a failed read is so before each read.
    ensures told_as_read { (IsErrOf result DeskFault.Read → ⊥)
        → R.failures reader.new ≡ R.failures reader.old }
    ensures reads { IsReadWithin ⟦<R as Source>⟧ reader.old reader.new }
{
    let mut games = HintedGames::new(given, is_numbered, form);
    let counts = answer_lines(&mut games, &mut FreshRows, reader, writer)?;
    let desk = games.into_desk();
    write_end(form, &desk, writer)?;
    Ok(GamesReport { counts, desk })
}
