//! What players call the jobs, the keys and their values.
ghost use Rattle.std.specs.Prelude.{◌≡◌, IfSome, IfNone, map};
ghost use Rattle.std.specs.Bool.{Decides};
ghost use Rattle.std.specs.List.{All};
ghost use Rattle.riichi_hints.specs.Near as spec;
ghost use Rattle.riichi_hints.specs.Near.{IsWithin, IsReached, IsNearest};

use crate::text::Part;
use riichi_hand::{By, JobName, Key};

#[derive(Clone, Copy, Debug, PartialEq, Eq)]
pub(crate) enum Flag {
    Ippatsu,
    Rinshan,
    Chankan,
    Last,
    First,
}

/// What a word means.
#[derive(Clone, Copy, Debug, PartialEq, Eq)]
pub(crate) enum Meaning {
    Job(JobName),
    Hand,
    Key(Key),
    By(By),
    Flag(Flag),
    DoubleRiichi,
    /// A meld whose tiles follow.
    Meld,
    /// Red fives, how many or which.
    Red,
    /// Something of a game that no key of a line says.
    Unsaid,
}

/// The names, in small letters and without hyphens. The first of each key is its own. Of names that are equally near to a word the first
/// is taken, so the shortest keys are the last.
const NAMES: [(&str, Meaning); 124] = [
    ("win", Meaning::Job(JobName::Win)),
    ("wins", Meaning::Job(JobName::Win)),
    ("won", Meaning::Job(JobName::Win)),
    ("score", Meaning::Job(JobName::Win)),
    ("agari", Meaning::Job(JobName::Win)),
    ("gewinn", Meaning::Job(JobName::Win)),
    ("gewonnen", Meaning::Job(JobName::Win)),
    ("gagne", Meaning::Job(JobName::Win)),
    ("victoire", Meaning::Job(JobName::Win)),
    ("wygrana", Meaning::Job(JobName::Win)),
    ("waits", Meaning::Job(JobName::Waits)),
    ("wait", Meaning::Job(JobName::Waits)),
    ("waiting", Meaning::Job(JobName::Waits)),
    ("machi", Meaning::Job(JobName::Waits)),
    ("tenpai", Meaning::Job(JobName::Waits)),
    ("warten", Meaning::Job(JobName::Waits)),
    ("wartet", Meaning::Job(JobName::Waits)),
    ("attente", Meaning::Job(JobName::Waits)),
    ("attentes", Meaning::Job(JobName::Waits)),
    ("czeka", Meaning::Job(JobName::Waits)),
    ("shape", Meaning::Job(JobName::Shape)),
    ("shanten", Meaning::Job(JobName::Shape)),
    ("ukeire", Meaning::Job(JobName::Shape)),
    ("discard", Meaning::Job(JobName::Shape)),
    ("form", Meaning::Job(JobName::Shape)),
    ("forme", Meaning::Job(JobName::Shape)),
    ("ksztalt", Meaning::Job(JobName::Shape)),
    ("hand", Meaning::Hand),
    ("tiles", Meaning::Hand),
    ("seat", Meaning::Key(Key::Seat)),
    ("seatwind", Meaning::Key(Key::Seat)),
    ("wind", Meaning::Key(Key::Seat)),
    ("jikaze", Meaning::Key(Key::Seat)),
    ("player", Meaning::Key(Key::Seat)),
    ("platz", Meaning::Key(Key::Seat)),
    ("vent", Meaning::Key(Key::Seat)),
    ("miejsce", Meaning::Key(Key::Seat)),
    ("round", Meaning::Key(Key::Round)),
    ("roundwind", Meaning::Key(Key::Round)),
    ("bakaze", Meaning::Key(Key::Round)),
    ("prevailing", Meaning::Key(Key::Round)),
    ("prevalent", Meaning::Key(Key::Round)),
    ("runde", Meaning::Key(Key::Round)),
    ("manche", Meaning::Key(Key::Round)),
    ("runda", Meaning::Key(Key::Round)),
    ("open", Meaning::Key(Key::Open)),
    ("melds", Meaning::Key(Key::Open)),
    ("meld", Meaning::Key(Key::Open)),
    ("called", Meaning::Key(Key::Open)),
    ("calls", Meaning::Key(Key::Open)),
    ("furo", Meaning::Key(Key::Open)),
    ("fuuro", Meaning::Key(Key::Open)),
    ("naki", Meaning::Key(Key::Open)),
    ("riichi", Meaning::Key(Key::Riichi)),
    ("reach", Meaning::Key(Key::Riichi)),
    ("richi", Meaning::Key(Key::Riichi)),
    ("flags", Meaning::Key(Key::Flags)),
    ("flag", Meaning::Key(Key::Flags)),
    ("yaku", Meaning::Key(Key::Flags)),
    ("dora", Meaning::Key(Key::Dora)),
    ("indicator", Meaning::Key(Key::Dora)),
    ("doraindicator", Meaning::Key(Key::Dora)),
    ("ura", Meaning::Key(Key::Ura)),
    ("uradora", Meaning::Key(Key::Ura)),
    ("counters", Meaning::Key(Key::Counters)),
    ("counter", Meaning::Key(Key::Counters)),
    ("honba", Meaning::Key(Key::Counters)),
    ("sticks", Meaning::Key(Key::Sticks)),
    ("stick", Meaning::Key(Key::Sticks)),
    ("kyoutaku", Meaning::Key(Key::Sticks)),
    ("kyotaku", Meaning::Key(Key::Sticks)),
    ("riichisticks", Meaning::Key(Key::Sticks)),
    ("seen", Meaning::Key(Key::Seen)),
    ("visible", Meaning::Key(Key::Seen)),
    ("discards", Meaning::Key(Key::Seen)),
    ("ron", Meaning::By(By::Ron)),
    ("tsumo", Meaning::By(By::Tsumo)),
    ("selfdraw", Meaning::By(By::Tsumo)),
    ("draw", Meaning::By(By::Tsumo)),
    ("selfpick", Meaning::By(By::Tsumo)),
    ("zimo", Meaning::By(By::Tsumo)),
    ("ippatsu", Meaning::Flag(Flag::Ippatsu)),
    ("rinshan", Meaning::Flag(Flag::Rinshan)),
    ("rinshankaihou", Meaning::Flag(Flag::Rinshan)),
    ("chankan", Meaning::Flag(Flag::Chankan)),
    ("last", Meaning::Flag(Flag::Last)),
    ("haitei", Meaning::Flag(Flag::Last)),
    ("houtei", Meaning::Flag(Flag::Last)),
    ("first", Meaning::Flag(Flag::First)),
    ("tenhou", Meaning::Flag(Flag::First)),
    ("chiihou", Meaning::Flag(Flag::First)),
    ("doubleriichi", Meaning::DoubleRiichi),
    ("double", Meaning::DoubleRiichi),
    ("daburii", Meaning::DoubleRiichi),
    ("daburi", Meaning::DoubleRiichi),
    ("chi", Meaning::Meld),
    ("chii", Meaning::Meld),
    ("chow", Meaning::Meld),
    ("pon", Meaning::Meld),
    ("pung", Meaning::Meld),
    ("kan", Meaning::Meld),
    ("kong", Meaning::Meld),
    ("ankan", Meaning::Meld),
    ("aka", Meaning::Red),
    ("akadora", Meaning::Red),
    ("red", Meaning::Red),
    ("reds", Meaning::Red),
    ("redfive", Meaning::Red),
    ("redfives", Meaning::Red),
    ("kyoku", Meaning::Unsaid),
    ("pao", Meaning::Unsaid),
    ("liable", Meaning::Unsaid),
    ("han", Meaning::Unsaid),
    ("fu", Meaning::Unsaid),
    ("points", Meaning::Unsaid),
    ("from", Meaning::Unsaid),
    ("loser", Meaning::Unsaid),
    ("on", Meaning::Key(Key::On)),
    ("tile", Meaning::Key(Key::On)),
    ("wintile", Meaning::Key(Key::On)),
    ("winningtile", Meaning::Key(Key::On)),
    ("agarihai", Meaning::Key(Key::On)),
    ("by", Meaning::Key(Key::By)),
    ("how", Meaning::Key(Key::By)),
];

/// What a word means that is one of the names.
pub(crate) fn meaning_of(word: &[u8]) -> Option<Meaning> {
    near_meaning(&NAMES, 0, name_of(word)?.as_slice())
}

/// What the name nearest to a word means, where at most two edits lead there, and no more than half of the word's letters.
pub(crate) fn nearest_meaning(word: &[u8]) -> Option<Meaning>
    ensures { IfSome result (λ meaning. IsNearest (spec.plain_name word.now) meaning) }
{
    let name = name_of(word)?;
    for edits in 0..(name.len() / 2 + 1).min(3) {
        if let Some(meaning) = near_meaning(&NAMES, edits, name.as_slice()) {
            return Some(meaning);
        }
    }
    None
}

/// What the first of the names means that at most so many edits lead to.
fn near_meaning(names: &[(&str, Meaning)], edits: usize, name: &[u8]) -> Option<Meaning>
    requires { map (λ row. (row.0.now, row.1)) names.now ≡ spec.names }
    ensures some { IfSome result (λ meaning. IsReached edits name.now meaning) }
    ensures none { IfNone result (All (λ row. IsWithin edits row.0 name.now → ⊥) spec.names) }
{
    for (known, meaning) in names {
        if is_near(edits, known.as_bytes(), name) {
            return Some(*meaning);
        }
    }
    None
}

/// The word in small letters, without what joins its parts; none where it is longer than any name.
#[tactic(auto, using(crate::proofs::NearLemmas::letter_kept, crate::proofs::NearLemmas::letter_left_out))]
pub(crate) fn name_of(word: &[u8]) -> Option<Part>
    ensures { IfSome result (λ name. name.items ≡ spec.plain_name word.now) }
{
    let mut name = Part::new();
    for byte in word {
        if let Some(letter) = small_letter(*byte) {
            if name.is_full() {
                return None;
            }
            name.push(letter);
        }
    }
    Some(name)
}

fn small_letter(byte: u8) -> Option<u8>
    ensures { result ≡ spec.small_letter byte }
{
    match byte {
        b'-' | b'_' | b'.' | b'!' => None,
        b'A'..=b'Z' => Some(byte + 32),
        _ => Some(byte),
    }
}

/// Whether at most so many letters put in or left out make one word the other.
fn is_near(edits: usize, word: &[u8], other: &[u8]) -> bool
    ensures { Decides result (IsWithin edits word.now other.now) }
{
    match word {
        [] => other.len() <= edits,
        [first, after @ ..] => match other {
            [] => word.len() <= edits,
            [second, rest @ ..] => if first == second {
                is_near(edits, after, rest)
            } else {
                edits > 0 && (is_near(edits - 1, after, other) || is_near(edits - 1, word, rest))
            },
        },
    }
}
