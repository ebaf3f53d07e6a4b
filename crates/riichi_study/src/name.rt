//! The jobs of a study line.
ghost use Rattle.std.specs.Prelude.{◌≡◌};
ghost use Rattle.riichi_study.specs.Words as spec;

use crate::key::StudyKey;
use crate::words::own_value;

/// What a study line asks, by its first word.
#[derive(Clone, Copy, Debug, PartialEq, Eq)]
pub enum StudyName {
    /// How far a hand is from a win, and what stands beyond its next step.
    Shape,
    /// Which calls of a thrown tile bring a hand nearer.
    Calls,
    /// On which tiles of a hand a threatening player can't win, and whether the hand is furiten.
    Safe,
    /// How likely a hand is to be ready, and to win, by so many draws.
    Chances,
    /// What a hand is worth by so many draws.
    Worth,
}

impl StudyName {
    pub(crate) fn read(word: &[u8]) -> Option<StudyName>
        ensures { result ≡ spec.study_named word.now }
    {
        if word == b"shape".as_slice() {
            Some(StudyName::Shape)
        } else if word == b"calls".as_slice() {
            Some(StudyName::Calls)
        } else if word == b"safe".as_slice() {
            Some(StudyName::Safe)
        } else if word == b"chances".as_slice() {
            Some(StudyName::Chances)
        } else if word == b"worth".as_slice() {
            Some(StudyName::Worth)
        } else {
            None
        }
    }

    /// Whether a word has a key that a study line of this job can have and a shape line can't.
    pub(crate) fn is_own(self, word: &[u8]) -> bool
        ensures { result ≡ spec.is_own self word.now }
    {
        match self {
            StudyName::Shape => own_value(StudyKey::Order, word).is_some(),
            StudyName::Calls => {
                own_value(StudyKey::Tile, word).is_some()
                    || own_value(StudyKey::From, word).is_some()
            }
            StudyName::Safe => {
                own_value(StudyKey::Own, word).is_some()
                    || own_value(StudyKey::Thrown, word).is_some()
                    || own_value(StudyKey::Since, word).is_some()
            }
            StudyName::Chances => own_value(StudyKey::Turns, word).is_some(),
            StudyName::Worth => is_of_worth(word),
        }
    }
}

/// Whether a word has a key of the line `worth`.
fn is_of_worth(word: &[u8]) -> bool
    ensures { result ≡ spec.is_own StudyName.Worth word.now }
{
    own_value(StudyKey::Turns, word).is_some()
        || own_value(StudyKey::Seat, word).is_some()
        || own_value(StudyKey::Round, word).is_some()
        || own_value(StudyKey::Dora, word).is_some()
        || own_value(StudyKey::Rules, word).is_some()
}
