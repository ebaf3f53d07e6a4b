//! How many answer lines were written, and which line set no profile.
ghost use Rattle.std.specs.Prelude.{◌≡◌, ◌+◌, ◌<◌, ◌⊎◌, IfOk, IfErr};
ghost use Rattle.desk_lines.specs.Slips.{told_slip};

use super::fault::DeskFault;
use riichi_hand::Rules;

/// How many answer lines were written.
#[derive(Clone, Copy, Debug, PartialEq, Eq)]
pub struct DeskReport {
    /// Those that say what a hand or a script comes to.
    pub answered: u64,
    /// Those that say why a line is refused.
    pub refused: u64,
}

/// The report on a text of record lines.
#[derive(Clone, Copy, Debug, PartialEq, Eq)]
pub struct TextReport {
    /// How many answer lines were written.
    pub counts: DeskReport,
    /// The first line that looks like a profile line and sets no profile.
    pub slip: Option<Slip>,
}

/// A line that looks like a profile line and sets no profile.
#[derive(Clone, Copy, Debug, PartialEq, Eq)]
pub struct Slip {
    /// Its number, counted from 1; all lines count.
    pub line: u64,
    /// The rules under which the lines of its text are answered.
    pub rules: Rules,
}

/// The most lines of a count.
const MOST_LINES: u64 = u64::MAX;

impl DeskReport {
    /// The report on two texts together. Just where a `u64` doesn't hold one of the counts there is no memory.
    pub fn plus(self, other: DeskReport) -> Result<DeskReport, DeskFault>
        ensures ok { IfOk result (λ sum. (sum.answered ≡ self.answered + other.answered)
            × (sum.refused ≡ self.refused + other.refused)) }
        ensures err { IfErr result (λ fault. (fault ≡ DeskFault.Memory)
            × ((MOST_LINES < self.answered + other.answered)
            ⊎ (MOST_LINES < self.refused + other.refused))) }
    {
        match (
            self.answered.checked_add(other.answered),
            self.refused.checked_add(other.refused),
        ) {
            (Some(answered), Some(refused)) => Ok(DeskReport { answered, refused }),
            _ => Err(DeskFault::Memory),
        }
    }
}

impl TextReport {
    /// The report on a text, of which the line of this number looks like a profile line and sets none.
    pub fn new(counts: DeskReport, line: Option<u64>, rules: Rules) -> TextReport
        ensures counts { result.counts ≡ counts }
        ensures slip { result.slip ≡ told_slip rules line }
    {
        let slip = match line {
            Some(line) => Some(Slip { line, rules }),
            None => None,
        };
        TextReport { counts, slip }
    }
}
