//! The answers of a round, in their order.
ghost use Rattle.std.specs.Prelude.{◌≡◌, ◌≤◌, ◌*◌, [], length, OnOk, IfErr};
ghost use Rattle.std.specs.List.{All};
ghost use Rattle.desk_lines.specs.Lines.{ended_lines};
ghost use Rattle.desk_lines.specs.Streams.{Writes};
ghost use Rattle.desk_crew.specs.Pieces.{AreGathered, HaveAnswers, answers_in_rooms};

use crate::rooms::Rooms;
use crate::round::take_piece;
use crate::share::Share;
use desk_io::Sink;
use desk_lines::{DeskFault, Responder, Tally, write_all};
use riichi_hand::Rules;

impl Rooms {
    /// Forgets all answers.
    pub(crate) fn clear(&mut self)
        ensures { answers_in_rooms self.new ≡ [] }
    {
        for place in 0..self.rooms.len() {
            self.rooms[place].clear();
        }
    }

    /// Takes the answers to the pieces from the shares, in the order of the pieces, and counts them with others. A piece that
    /// stands nowhere, or without a tally, is one for which its thread had no memory.
    pub(crate) fn gather<A: Responder>(
        &mut self,
        rules: Rules,
        text: &[u8],
        size: usize,
        shares: &mut [Share],
        tally: &mut Tally,
    ) -> Result<(), DeskFault>
        requires answered { All (HaveAnswers A.may_tell rules text.now size) shares.old }
        requires all { length text.now ≤ 64 * size }
        ensures ok { OnOk result (AreGathered A.may_tell rules (ended_lines text.now)
            (answers_in_rooms self.new) tally.old tally.new) }
        ensures err { IfErr result (λ fault. fault ≡ DeskFault.Memory) }
    {
        for number in 0..self.rooms.len() {
            let room = &mut self.rooms[number];
            let Some(more) = take_piece::<A>(rules, text, size, shares, number, room) else {
                return Err(DeskFault::Memory);
            };
            *tally = tally.plus(more)?;
        }
        Ok(())
    }

    /// Writes the answers.
    pub(crate) fn write<W: Sink>(&self, writer: &mut W) -> Result<(), DeskFault>
        ensures { Writes ⟦<W as Sink>⟧ writer.old writer.new result (answers_in_rooms self.now) }
    {
        for place in 0..self.rooms.len() {
            write_all(writer, self.rooms[place].as_slice())?;
        }
        Ok(())
    }
}
