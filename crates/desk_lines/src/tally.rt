//! What record lines come to.
ghost use Rattle.std.specs.Prelude.{◌≡◌, ◌+◌, ◌<◌, ◌^◌, option_map, IfOk, IfErr};
ghost use Rattle.desk_lines.specs.Slips.{both_tallies, empty_tally, first_slip, slip_at, tally_with};
ghost use Rattle.desk_lines.specs.Telling.{count_of, report_with};

use super::fault::DeskFault;
use super::line_kind::LineKind;
use super::report::DeskReport;
use super::slip::is_like_profile;

/// What some record lines of a text come to.
#[derive(Clone, Copy)]
pub struct Tally {
    /// How many are answered, and how many refused.
    pub counts: DeskReport,
    /// How many there are.
    pub lines: u64,
    /// The number of the first that looks like a profile line, counted from 1.
    pub slip: Option<u64>,
}

impl Tally {
    /// What no lines come to.
    pub fn of_none() -> Tally
        ensures { result ≡ empty_tally }
    {
        Tally {
            counts: DeskReport {
                answered: 0,
                refused: 0,
            },
            lines: 0,
            slip: None,
        }
    }

    /// With one line more.
    pub(crate) fn with_line(self, line: &[u8], kind: LineKind) -> Tally
        requires counts { count_of self.counts + 1 < 2 ^ 64 }
        requires lines { self.lines + 1 < 2 ^ 64 }
        ensures { result ≡ tally_with self line.now kind }
    {
        let number = self.lines + 1;
        let slip = match self.slip {
            Some(slip) => Some(slip),
            None => slip_at(number, line),
        };
        Tally {
            counts: counted(self.counts, kind),
            lines: number,
            slip,
        }
    }

    /// What these lines and those behind them come to. Just where a `u64` doesn't hold one of the numbers there is no memory.
    #[tactic(auto, using(crate::proofs::SlipLemmas::both_from))]
    pub fn plus(self, later: Tally) -> Result<Tally, DeskFault>
        ensures ok { IfOk result (λ sum. sum ≡ both_tallies self later) }
        ensures err { IfErr result (λ fault. fault ≡ DeskFault.Memory) }
    {
        let counts = self.counts.plus(later.counts)?;
        let lines = added(self.lines, later.lines)?;
        let slip = first_slip(self.lines, self.slip, later.slip)?;
        Ok(Tally {
            counts,
            lines,
            slip,
        })
    }
}

/// The line of this number, where it looks like a profile line.
pub(crate) fn slip_at(number: u64, line: &[u8]) -> Option<u64>
    ensures { result ≡ slip_at number line.now }
{
    if is_like_profile(line) {
        Some(number)
    } else {
        None
    }
}

/// The first of two lines, where the second is counted behind so many others.
fn first_slip(lines: u64, slip: Option<u64>, later: Option<u64>) -> Result<Option<u64>, DeskFault>
    ensures ok { IfOk result (λ first. first
        ≡ first_slip slip (option_map (λ line. lines + line) later)) }
    ensures err { IfErr result (λ fault. fault ≡ DeskFault.Memory) }
{
    match (slip, later) {
        (Some(line), _) => Ok(Some(line)),
        (None, Some(line)) => Ok(Some(added(lines, line)?)),
        (None, None) => Ok(None),
    }
}

/// Both numbers together.
fn added(one: u64, other: u64) -> Result<u64, DeskFault>
    ensures ok { IfOk result (λ sum. sum ≡ one + other) }
    ensures err { IfErr result (λ fault. fault ≡ DeskFault.Memory) }
{
    match one.checked_add(other) {
        Some(sum) => Ok(sum),
        None => Err(DeskFault::Memory),
    }
}

/// A report with one more line.
fn counted(report: DeskReport, kind: LineKind) -> DeskReport
    requires { count_of report + 1 < 2 ^ 64 }
    ensures { result ≡ report_with report kind }
{
    let DeskReport { answered, refused } = report;
    match kind {
        LineKind::NoRecord => report,
        LineKind::Answered => DeskReport {
            answered: answered + 1,
            refused,
        },
        LineKind::Refused => DeskReport {
            answered,
            refused: refused + 1,
        },
    }
}
