//! How far a stream is answered.
ghost use Rattle.std.specs.Prelude.{◌≡◌, None, IfSome, unwrap_or};
ghost use Rattle.desk_lines.specs.Lines.{ended_lines};
ghost use Rattle.desk_lines.specs.Records.{next_profile, records_in, sets_profile};
ghost use Rattle.desk_lines.specs.Slips.{empty_tally, told_slip};
ghost use Rattle.desk_crew.specs.Pieces.{begun_tally};

use desk_lines::{Tally, TextReport, next_records};
use riichi_hand::Rules;

/// How far a stream is answered.
#[derive(Clone, Copy)]
pub(crate) struct Standing {
    /// The profile of the stream, or none before its first line.
    pub(crate) profile: Option<Rules>,
    /// What its lines come to, the one that sets the profile too.
    pub(crate) tally: Tally,
}

impl Standing {
    /// Before the first line.
    pub(crate) fn new() -> Standing
        ensures profile { result.profile ≡ None }
        ensures tally { result.tally ≡ empty_tally }
    {
        Standing {
            profile: None,
            tally: Tally::of_none(),
        }
    }

    /// The rules and the record lines of a text with which the stream goes on. Its first line may set the profile.
    pub(crate) fn begin<'text>(&mut self, given: Rules, text: &'text [u8]) -> (Rules, &'text [u8])
        ensures records { ended_lines result.1.now
            ≡ records_in self.old.profile (ended_lines text.now) }
        ensures profile { self.new.profile
            ≡ next_profile given self.old.profile (ended_lines text.now) }
        ensures rules { IfSome self.new.profile (λ rules. rules ≡ result.0) }
        ensures tally { self.new.tally
            ≡ begun_tally (sets_profile self.old.profile (ended_lines text.now)) self.old.tally }
    {
        match next_records(given, self.profile, text) {
            None => (given, text),
            Some(next) => {
                self.profile = Some(next.rules);
                if next.sets_profile {
                    self.tally.lines = 1;
                }
                (next.rules, next.text)
            }
        }
    }

    /// The report on the stream, whose profile is the given one where it sets none.
    pub(crate) fn report(&self, given: Rules) -> TextReport
        ensures counts { result.counts ≡ self.now.tally.counts }
        ensures slip { result.slip
            ≡ told_slip (unwrap_or self.now.profile given) self.now.tally.slip }
    {
        TextReport::new(
            self.tally.counts,
            self.tally.slip,
            self.profile.unwrap_or(given),
        )
    }
}
