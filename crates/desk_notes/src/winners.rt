//! Two winners' lines that are both paid the same counters and sticks.
ghost use Rattle.std.specs.Prelude.{◌≡◌};
ghost use Rattle.desk_notes.specs.Winners as spec;

use riichi_hand::{Job, LineFault, WinRecord, is_ron};
use std::fmt;

/// What a line comes to: no record, a job, or why it is refused.
pub(crate) type LineOutcome = Result<Option<Job>, LineFault>;

/// Whether a line is a win that is paid what the win before it was paid.
pub(crate) fn is_paid_again(before: &Option<WinRecord>, outcome: &LineOutcome) -> bool
    ensures { result ≡ spec.is_paid_again before.now outcome.now }
{
    match (before, outcome) {
        (Some(one), Ok(Some(Job::Win(other)))) => are_both_paid(one, other),
        _ => false,
    }
}

/// The win that the last record is, where it is one, once a line comes to this.
pub(crate) fn last_win_by(before: Option<WinRecord>, outcome: &LineOutcome) -> Option<WinRecord>
    ensures { result ≡ spec.last_win_by before outcome.now }
{
    match outcome {
        Ok(None) => before,
        Ok(Some(Job::Win(win))) => Some(*win),
        _ => None,
    }
}

/// Whether two wins may be those of one discard, and both are paid the same counters and sticks.
fn are_both_paid(one: &WinRecord, other: &WinRecord) -> bool
    ensures { result ≡ spec.are_both_paid one.now other.now }
{
    may_be_of_one_discard(one, other)
        && one.counters() == other.counters()
        && one.sticks() == other.sticks()
        && (one.counters() > 0 || one.sticks() > 0)
}

/// Whether both wins are by ron on the same kind in the same round, and from different seats.
fn may_be_of_one_discard(one: &WinRecord, other: &WinRecord) -> bool
    ensures { result ≡ spec.may_be_of_one_discard one.now other.now }
{
    is_ron(one.by())
        && is_ron(other.by())
        && one.winning() == other.winning()
        && one.round().kind() == other.round().kind()
        && one.seat().kind() != other.seat().kind()
}

/// That a win is paid the counters and sticks that the win before it was paid.
#[derive(Drop)]
pub struct WinnersWords<'s> {
    /// The name of the text.
    pub name: &'s str,
    /// The number of the line.
    pub line: u64,
}

impl fmt::Display for WinnersWords<'_> {
    ghost use Rattle.std.specs.Prelude.{Some};
    ghost use Rattle.desk_notes.specs.Winners.{winners_text};

    ghost output = { λ words. Some (winners_text words.name.now words.line) };

    fn fmt<W: fmt::Write>(&self, f: &mut fmt::Formatter<W>) -> fmt::Result {
        let (name, line) = (self.name, self.line);
        write!(
            f,
            "riichi_desk: {name}: line {line}: this win and the one before it are by ron on the same tile, with the same counters and sticks, and both are paid them; where it was one discard, one of the lines leaves them out"
        )
    }
}
