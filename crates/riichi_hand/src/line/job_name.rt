ghost use Rattle.std.specs.Prelude.{◌≡◌};
ghost use Rattle.riichi_hand.specs.Keys.{job_named, has_key};
ghost use Rattle.riichi_hand.specs.Parts.{job_in};
ghost use Rattle.riichi_hand.specs.Words.{words_of};

use super::cuts::next_word;
use super::key::Key;

/// The jobs, as a line names them.
#[derive(Clone, Copy, Debug, PartialEq, Eq)]
pub enum JobName {
    /// What a win is worth.
    Win,
    /// For which tiles a hand waits.
    Waits,
    /// How far a shape is from a win.
    Shape,
}

impl JobName {
    pub(crate) fn read(word: &[u8]) -> Option<JobName>
        ensures { result ≡ job_named word.now }
    {
        match word {
            b"win" => Some(JobName::Win),
            b"waits" => Some(JobName::Waits),
            b"shape" => Some(JobName::Shape),
            _ => None,
        }
    }

    /// The job that the first word of a line names.
    pub(crate) fn of_line(line: &[u8]) -> Option<JobName>
        ensures { result ≡ job_in (words_of line.now) }
    {
        let (word, _) = next_word(line)?;
        JobName::read(word)
    }

    /// Whether a line with this job may have a key.
    pub fn has_key(self, key: Key) -> bool
        ensures { result ≡ has_key self key }
    {
        match self {
            JobName::Win => !matches!(key, Key::Seen),
            JobName::Waits => matches!(key, Key::Open),
            JobName::Shape => matches!(key, Key::Open | Key::Seen),
        }
    }
}
