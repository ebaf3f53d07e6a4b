//! What a job must be given.
ghost use Rattle.std.specs.Prelude.{◌≡◌, true, false, MatchOption, Some};
ghost use Rattle.std.specs.List.{list_any};
ghost use Rattle.riichi_hand.specs.Faults.{IsValueOrFirstFault};
ghost use Rattle.riichi_hand.specs.Lines.{need_faults};
ghost use Rattle.riichi_hand.specs.Parts.{parts_in, is_missing};
ghost use Rattle.riichi_hand.specs.Keys.{needed};
ghost use Rattle.riichi_hand.specs.Jobs.{win_keys};
ghost use Rattle.riichi_hand.specs.declared.line.job_name.JobName.TheVariants.{Win};
ghost use Rattle.riichi_hand.specs.Entries.{Holds};

use super::fields::Fields;
use super::job_name::JobName;
use super::words::Words;
use crate::fault::{LineCode, LineFault};
use crate::win::{By, Wind};

/// The values that a win must be given, beside its tiles.
#[derive(Clone, Copy)]
pub(crate) struct WinKeys {
    pub(crate) by: By,
    pub(crate) seat: Wind,
    pub(crate) round: Wind,
}

/// The jobs, each with the values that it must be given beside its tiles.
#[derive(Clone, Copy)]
pub(crate) enum Needed {
    Win(WinKeys),
    Waits,
    Shape,
}

impl Needed {
    ghost use Rattle.riichi_hand.specs.Jobs.{AreNeeded};

    /// What the line's job needs, or H6 where a key that must be there is missing.
    pub(crate) fn read(words: &Words<'_>, fields: &Fields<'_>) -> Result<Needed, LineFault>
        requires { Holds fields.now (parts_in words.now).entries }
        ensures { let parts = parts_in words.now in
            IsValueOrFirstFault result (need_faults parts) (λ needed. AreNeeded needed parts) }
    {
        match words.job {
            JobName::Win => match win_keys(words, fields) {
                Some(keys) => Ok(Needed::Win(keys)),
                None => Err(LineFault::Line(LineCode::H6)),
            },
            JobName::Waits => Ok(Needed::Waits),
            JobName::Shape => Ok(Needed::Shape),
        }
    }
}

/// The values that a win must be given, where none is missing, nor the winning tile.
fn win_keys(words: &Words<'_>, fields: &Fields<'_>) -> Option<WinKeys>
    requires { Holds fields.now (parts_in words.now).entries }
    ensures { let parts = parts_in words.now in
        MatchOption result (list_any (is_missing parts) (needed Win) ≡ true)
        (λ keys. (list_any (is_missing parts) (needed Win) ≡ false) × (win_keys parts ≡ Some keys)) }
{
    let _on = fields.on?;
    Some(WinKeys {
        by: fields.by?,
        seat: fields.seat?,
        round: fields.round?,
    })
}
