//! What a message to a table comes to.
ghost use Rattle.std.specs.Prelude.{◌≡◌, MatchOption};
ghost use Rattle.desk_hall.specs.Decided as spec;
ghost use Rattle.desk_hall.specs.Fronts.{first_front};
ghost use Rattle.desk_hall.specs.Playing.{MeetsFault};

use crate::decision::Decision;
use crate::position::Position;
use crate::sight::{Sight, line_decided, look, withdrawal_decided};

/// What a message to a table comes to.
#[derive(Clone, Copy)]
pub struct Judged<P> {
    pub decision: Decision<P>,
    /// How far the game has come by the live deals before the number.
    pub front: P,
    /// The number that the book gave to the next deal before the message.
    pub next: u64,
    /// The number of the last live deal before the message, or 0.
    pub last_live: u64,
    /// Where the deal of the number begins in the text of the deals, or would: there the next book has a line that is taken, with a
    /// line feed behind it, or the words `# withdrawn ` of a deal that is withdrawn.
    pub place: usize,
}

/// What a line comes to that is handed in at a number, by the table's game before its first deal and the text of its deals; none where a
/// line of the text isn't ended, or the game refuses a live deal.
pub fn hand_in<P: Position>(start: &P, text: &[u8], number: u64, line: &[u8]) -> Option<Judged<P>>
    ensures { MatchOption result (MeetsFault P.reads (first_front start.now) text.now)
        (λ judged. spec.IsJudged P.reads P.same start.now text.now number (spec.HandsIn line.now) judged) }
{
    let Some(sight) = look(start, text, number) else {
        return None;
    };
    let decision = line_decided(&sight, number, line);
    Some(judged_by(&sight, decision))
}

/// What the withdrawal of a number does; none as above.
pub fn withdraw<P: Position>(start: &P, text: &[u8], number: u64) -> Option<Judged<P>>
    ensures { MatchOption result (MeetsFault P.reads (first_front start.now) text.now)
        (λ judged. spec.IsJudged P.reads P.same start.now text.now number spec.Withdraws judged) }
{
    let Some(sight) = look(start, text, number) else {
        return None;
    };
    let decision = withdrawal_decided(&sight, number);
    Some(judged_by(&sight, decision))
}

fn judged_by<P: Position>(sight: &Sight<'_, P>, decision: Decision<P>) -> Judged<P>
    ensures decision { result.decision ≡ decision }
    ensures front { result.front ≡ sight.now.front }
    ensures next { result.next ≡ sight.now.next }
    ensures last { result.last_live ≡ sight.now.last_live }
    ensures place { result.place ≡ sight.now.place }
{
    Judged {
        decision,
        front: sight.front,
        next: sight.next,
        last_live: sight.last_live,
        place: sight.place,
    }
}
