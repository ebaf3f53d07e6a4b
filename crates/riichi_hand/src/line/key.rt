ghost use Rattle.std.specs.Prelude.{◌≡◌, ◌≤◌, IfSome, length, option_map};
ghost use Rattle.riichi_hand.specs.Keys.{key_named, key_meaning};
ghost use Rattle.riichi_hand.specs.Entries.{key_in};

use riichi_tiles::split_at_mark;

/// The keys of a record line.
#[derive(Clone, Copy, Debug, PartialEq, Eq)]
pub enum Key {
    /// The winning tile.
    On,
    /// How it was won.
    By,
    /// The winner's wind.
    Seat,
    /// The prevalent wind.
    Round,
    /// The melds.
    Open,
    /// Riichi, and whether at the first turn.
    Riichi,
    /// The circumstances of the win.
    Flags,
    /// The dora indicators.
    Dora,
    /// The indicators under them.
    Ura,
    /// The counters on the table.
    Counters,
    /// The riichi sticks on the table.
    Sticks,
    /// The tiles that are seen elsewhere.
    Seen,
}

impl Key {
    ghost use Rattle.riichi_hand.specs.Keys.{key_name};

    /// The bytes of the longest name.
    pub const MOST_NAME: usize = "counters".len();

    /// The bytes of the longest meaning.
    pub const MOST_MEANING: usize = 84;

    /// Its name, which stands before `=`.
    pub fn name(self) -> &'static str
        ensures value { result.now ≡ key_name self }
        ensures short { length result.now ≤ Key.MOST_NAME }
    {
        match self {
            Key::On => "on",
            Key::By => "by",
            Key::Seat => "seat",
            Key::Round => "round",
            Key::Open => "open",
            Key::Riichi => "riichi",
            Key::Flags => "flags",
            Key::Dora => "dora",
            Key::Ura => "ura",
            Key::Counters => "counters",
            Key::Sticks => "sticks",
            Key::Seen => "seen",
        }
    }

    /// What its values are, in words. None where they are tiles or melds, whose faults are told by themselves.
    pub fn meaning(self) -> Option<&'static str>
        ensures value { option_map (λ words. words.now) result ≡ key_meaning self }
        ensures short { IfSome result (λ words. length words.now ≤ Key.MOST_MEANING) }
    {
        match self {
            Key::By => Some("a win is by ron or tsumo"),
            Key::Seat => Some("a seat is E, S, W or N"),
            Key::Round => Some("a round is E, S, W or N"),
            Key::Riichi => Some("riichi is 0, 1 or 2"),
            Key::Flags => Some(
                "flags are of ippatsu, rinshan, chankan, last and first, joined by commas, none twice",
            ),
            Key::Counters => Some("counters are one or two digits"),
            Key::Sticks => Some("sticks are one or two digits"),
            Key::On | Key::Open | Key::Dora | Key::Ura | Key::Seen => None,
        }
    }

    /// The key of a word: what stands before its first `=`, where that is the name of one.
    pub fn of_word(word: &[u8]) -> Option<Key>
        ensures { result ≡ key_in word.now }
    {
        let (name, _) = split_at_mark(word, b'=')?;
        Key::read(name)
    }

    pub(crate) fn read(name: &[u8]) -> Option<Key>
        ensures { result ≡ key_named name.now }
    {
        match name {
            b"on" => Some(Key::On),
            b"by" => Some(Key::By),
            b"seat" => Some(Key::Seat),
            b"round" => Some(Key::Round),
            b"open" => Some(Key::Open),
            b"riichi" => Some(Key::Riichi),
            b"flags" => Some(Key::Flags),
            b"dora" => Some(Key::Dora),
            b"ura" => Some(Key::Ura),
            b"counters" => Some(Key::Counters),
            b"sticks" => Some(Key::Sticks),
            b"seen" => Some(Key::Seen),
            _ => None,
        }
    }
}
