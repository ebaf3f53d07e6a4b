//! The rule profile that a stream's first line can set.
ghost use Rattle.std.specs.Prelude.{◌≡◌, ◌<◌, [], Some, None, MatchOption};
ghost use Rattle.desk_lines.specs.Lines.{ended_lines};
ghost use Rattle.desk_lines.specs.Records.{next_profile, records_in, sets_profile};
ghost use Rattle.desk_lines.specs.Profile.{profile_numbered, profile_of, rules_by, record_rules};

use super::first_line::first_line;
use riichi_hand::{MOST_LINE, Rules, has_other_byte, next_word};

/// Takes the first line of a stream, whose profile is the given one where that line sets none. Answers under which profile the
/// line is a record; none where it sets the profile.
#[inline(never)]
pub(crate) fn first_rules(given: Rules, stream: &mut Option<Rules>, line: &[u8]) -> Option<Rules>
    ensures stream { stream.new ≡ Some (rules_by given None line.now) }
    ensures record { result ≡ record_rules given None line.now }
{
    match profile_of(line) {
        Some(rules) => {
            *stream = Some(rules);
            None
        }
        None => {
            *stream = Some(given);
            Some(given)
        }
    }
}

/// What of a stream's next text can be records.
#[derive(Clone, Copy)]
pub struct NextRecords<'text> {
    /// The profile of the stream.
    pub rules: Rules,
    /// Whether the first line of the text sets it, and is no record.
    pub sets_profile: bool,
    /// The text without that line.
    pub text: &'text [u8],
}

/// The records of a text with which a stream goes on. The first line of all may set the profile, which is none until then. None
/// where that line has not ended.
pub fn next_records<'text>(
    given: Rules,
    profile: Option<Rules>,
    text: &'text [u8],
) -> Option<NextRecords<'text>>
    ensures { MatchOption result ((profile ≡ None) × (ended_lines text.now ≡ []))
        (λ found. (next_profile given profile (ended_lines text.now) ≡ Some found.rules)
        × (found.sets_profile ≡ sets_profile profile (ended_lines text.now))
        × (ended_lines found.text.now ≡ records_in profile (ended_lines text.now))) }
{
    if let Some(rules) = profile {
        return Some(NextRecords {
            rules,
            sets_profile: false,
            text,
        });
    }
    let (line, after) = first_line(text)?;
    match profile_of(line) {
        Some(rules) => Some(NextRecords {
            rules,
            sets_profile: true,
            text: after,
        }),
        None => Some(NextRecords {
            rules: given,
            sets_profile: false,
            text,
        }),
    }
}

/// The profile that a first line sets: its words are `rules` and the profile's number.
#[tactic(auto, unfolding(crate::specs::Profile::profile_of))]
pub fn profile_of(line: &[u8]) -> Option<Rules>
    ensures { result ≡ profile_of line.now }
{
    if line.len() > MOST_LINE || has_other_byte(line) {
        return None;
    }
    let (word, rest) = next_word(line)?;
    let (number, rest) = next_word(rest)?;
    if next_word(rest).is_some() || word != b"rules".as_slice() {
        return None;
    }
    profile_numbered(number)
}

fn profile_numbered(number: &[u8]) -> Option<Rules>
    ensures { result ≡ profile_numbered number.now }
{
    match number {
        b"1" => Some(Rules::One),
        b"2" => Some(Rules::Two),
        _ => None,
    }
}
