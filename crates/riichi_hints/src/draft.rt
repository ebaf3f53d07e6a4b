//! A draft of a line: what its words seem to say.
use crate::names::{Flag, Meaning};
use crate::role::{Role, Roles};
use crate::spelled::tile_by_number;
use crate::text::{Part, add, add_all};
use crate::tiles::add_tiles;
use crate::values::{by_of, is_dealer, is_hand_of_round, number_of, riichi_of, wind_of};
use riichi_hand::{By, Flags, JobName, Key};
use riichi_tiles::is_digit;

/// The parts of a line that is written anew. What is empty is not written.
#[derive(Drop)]
pub(crate) struct Draft {
    pub(crate) job: Option<JobName>,
    pub(crate) hand: Part,
    pub(crate) on: Part,
    pub(crate) by: &'static str,
    pub(crate) seat: &'static str,
    pub(crate) round: &'static str,
    pub(crate) melds: Part,
    /// The tiles of the melds.
    pub(crate) called: Part,
    pub(crate) meld_count: u8,
    /// A meld isn't a concealed kong.
    pub(crate) is_open: bool,
    pub(crate) riichi: u8,
    pub(crate) flags: Flags,
    pub(crate) dora: Part,
    pub(crate) ura: Part,
    pub(crate) counters: Part,
    pub(crate) sticks: Part,
    pub(crate) seen: Part,
    /// The last key that was named, whose value may go on. None of the hand.
    pub(crate) key: Option<Key>,
    /// The hand's tiles are numbers of two digits.
    pub(crate) has_numbers: bool,
    /// The seat is a wind without a key.
    pub(crate) has_loose_seat: bool,
    /// How many red fives the hand has besides those that it shows.
    pub(crate) reds: u8,
    /// The letters of the suits of such fives, where they are told.
    pub(crate) red_suits: Part,
    /// Which word behind the last one isn't read.
    pub(crate) passes: Passed,
    /// The first letter of a meld's name whose tiles follow, 0 where none is named.
    pub(crate) meld_letter: u8,
    /// The meld that is named next is concealed.
    pub(crate) has_concealed: bool,
    /// The line says what cannot be read: a meld without tiles.
    pub(crate) is_odd: bool,
    /// What the next word means.
    pub(crate) ahead: Option<Meaning>,
    /// The word behind the next one is tiles.
    pub(crate) has_tiles_ahead: bool,
    /// What the words of the line were read as.
    pub(crate) roles: Roles,
}

/// Which word isn't read.
#[derive(Clone, Copy, Debug, PartialEq, Eq)]
pub(crate) enum Passed {
    Nothing,
    /// Any word: the one before it takes it back.
    Word,
    /// A wind or a number: it belongs to a name that no key says.
    Value,
    /// A number: of red fives.
    Reds,
    /// The name of a meld whose tiles stand before it.
    MeldName,
    /// A word that says no, of riichi.
    Riichi,
}

impl Draft {
    pub(crate) fn new() -> Draft {
        Draft {
            job: None,
            hand: Part::new(),
            on: Part::new(),
            by: "",
            seat: "",
            round: "",
            melds: Part::new(),
            called: Part::new(),
            meld_count: 0,
            is_open: false,
            riichi: 0,
            flags: Flags::none(),
            dora: Part::new(),
            ura: Part::new(),
            counters: Part::new(),
            sticks: Part::new(),
            seen: Part::new(),
            key: None,
            has_numbers: false,
            has_loose_seat: false,
            reds: 0,
            red_suits: Part::new(),
            passes: Passed::Nothing,
            meld_letter: 0,
            has_concealed: false,
            is_odd: false,
            ahead: None,
            has_tiles_ahead: false,
            roles: Roles::new(),
        }
    }

    /// Takes the value of a key. What is told already isn't told anew.
    pub(crate) fn put(&mut self, key: Key, value: &[u8]) -> Role {
        let tile = self.by_number(value);
        let value = match &tile {
            Some(tile) => tile.as_slice(),
            None => value,
        };
        let is_taken = match key {
            Key::On => put_tile(&mut self.on, value),
            Key::By => put_once(&mut self.by, by_of(value)),
            Key::Seat => put_once(&mut self.seat, wind_of(value)),
            Key::Round => put_once(&mut self.round, wind_of(value)),
            Key::Open => return self.put_named_meld(value),
            Key::Riichi => {
                self.riichi = riichi_of(value);
                true
            }
            Key::Flags => false,
            Key::Dora => put_tiles(&mut self.dora, value),
            Key::Ura => put_tiles(&mut self.ura, value),
            Key::Counters => put_first(&mut self.counters, number_of(value)),
            Key::Sticks => put_first(&mut self.sticks, number_of(value)),
            Key::Seen => put_tiles(&mut self.seen, value),
        };
        if is_taken {
            Role::Entry(key)
        } else {
            Role::Unread
        }
    }

    /// The tile of two digits, where the hand has such.
    fn by_number(&self, value: &[u8]) -> Option<Part> {
        if self.has_numbers {
            tile_by_number(value)
        } else {
            None
        }
    }

    /// Takes tiles of the hand.
    pub(crate) fn put_hand(&mut self, tiles: &[u8]) -> Role {
        add_tiles(&mut self.hand, tiles);
        Role::Hand
    }

    /// Takes a wind without a key, which is the seat's before it is the round's.
    pub(crate) fn put_wind(&mut self, word: &[u8]) -> Role {
        if self.round.is_empty() && is_hand_of_round(word) {
            self.put(Key::Round, word)
        } else if self.seat.is_empty() {
            self.has_loose_seat = !is_dealer(word);
            self.put(Key::Seat, word)
        } else {
            self.put_second_wind(word)
        }
    }

    /// The dealer's wind is none but the seat's. Of two winds without keys either may be the seat's.
    fn put_second_wind(&mut self, word: &[u8]) -> Role {
        if is_dealer(word) {
            self.seat = if self.seat == "E" { "E" } else { "?" };
            return Role::Entry(Key::Seat);
        }
        let is_other = self.seat != wind_of(word);
        let role = self.put(Key::Round, word);
        if role != Role::Unread && self.has_loose_seat && is_other {
            Role::Winds
        } else {
            role
        }
    }

    /// Takes red fives: how many, or of which suit.
    pub(crate) fn put_red(&mut self, value: &[u8]) -> Role {
        match value {
            [b'0', b'm' | b'p' | b's'] | [b'5', b'm' | b'p' | b's'] => {
                add(&mut self.red_suits, value[1]);
                Role::Hand
            }
            [b'1'..=b'4'] => {
                self.reds = value[0] - b'0';
                Role::Hand
            }
            _ => Role::Unread,
        }
    }

    /// Takes the tiles of the meld that is named before them, or of one without a name.
    fn put_named_meld(&mut self, value: &[u8]) -> Role {
        let letter = [self.meld_letter];
        if self.meld_letter == 0 {
            self.put_meld(b"", value)
        } else {
            self.put_meld(&letter, value)
        }
    }

    /// A meld is named, whose tiles follow.
    pub(crate) fn name_meld(&mut self, letter: u8) -> Role {
        self.is_odd |= self.meld_letter != 0;
        self.meld_letter = if self.has_concealed { b'a' } else { letter };
        self.has_concealed = false;
        self.name(Key::Open)
    }

    /// Takes a meld. Which meld its tiles make; four of a kind are concealed where the name says so, and may be where it says nothing.
    pub(crate) fn put_meld(&mut self, name: &[u8], value: &[u8]) -> Role {
        self.meld_letter = 0;
        let tiles = meld_tiles(name, value);
        let word = meld_word(name, tiles.as_slice());
        if !self.melds.is_empty() {
            add(&mut self.melds, b',');
        }
        add_all(&mut self.melds, word.as_bytes());
        add_all(&mut self.melds, tiles.as_slice());
        add_all(&mut self.called, tiles.as_slice());
        self.meld_count = self.meld_count.saturating_add(1);
        if word != "ankan:" {
            self.is_open = true;
        }
        if word == "kan:" && name.is_empty() {
            Role::Likely(Key::Open)
        } else {
            Role::Entry(Key::Open)
        }
    }

    /// Takes what a word means that stands alone, or with a value of yes or no.
    pub(crate) fn take(&mut self, meaning: Meaning) -> Role {
        match meaning {
            Meaning::Job(job) => self.put_job(job),
            Meaning::Hand => {
                self.key = None;
                Role::Hand
            }
            Meaning::Key(key) => self.name(key),
            Meaning::By(By::Ron) => self.put(Key::By, b"ron"),
            Meaning::By(By::Tsumo) => self.put(Key::By, b"tsumo"),
            Meaning::Flag(flag) => {
                self.set(flag);
                Role::Entry(Key::Flags)
            }
            Meaning::DoubleRiichi => {
                self.riichi = 2;
                Role::Entry(Key::Riichi)
            }
            Meaning::Meld => self.name(Key::Open),
            Meaning::Red => {
                self.reds = self.reds.max(1);
                self.passes = Passed::Reds;
                Role::Hand
            }
            Meaning::Unsaid => {
                self.passes = Passed::Value;
                Role::Unread
            }
        }
    }

    /// The first job that is named.
    fn put_job(&mut self, job: JobName) -> Role {
        if self.job.is_none() {
            self.job = Some(job);
        }
        if self.job == Some(job) {
            Role::Job
        } else {
            Role::Unread
        }
    }

    /// A key is named, whose value follows.
    pub(crate) fn name(&mut self, key: Key) -> Role {
        self.key = Some(key);
        Role::Entry(key)
    }

    fn set(&mut self, flag: Flag) {
        match flag {
            Flag::Ippatsu => self.flags.ippatsu = true,
            Flag::Rinshan => self.flags.rinshan = true,
            Flag::Chankan => self.flags.chankan = true,
            Flag::Last => self.flags.last = true,
            Flag::First => self.flags.first = true,
        }
    }
}

/// Puts a word where none stands yet, or the same.
fn put_once(word: &mut &'static str, value: &'static str) -> bool {
    if word.is_empty() {
        *word = value;
    }
    *word == value
}

/// Puts a number where none stands yet.
fn put_first(part: &mut Part, value: &[u8]) -> bool {
    let is_new = part.is_empty();
    if is_new {
        add_all(part, value);
    }
    is_new
}

/// Puts a tile where none stands yet.
fn put_tile(part: &mut Part, value: &[u8]) -> bool {
    let is_new = part.is_empty();
    if is_new {
        add_tiles(part, value);
    }
    is_new
}

/// Puts tiles behind others.
fn put_tiles(part: &mut Part, value: &[u8]) -> bool {
    add_tiles(part, value);
    true
}

/// The tiles of a meld: of a kong one more, where three alone are written.
fn meld_tiles(name: &[u8], value: &[u8]) -> Part {
    let mut tiles = Part::new();
    add_tiles(&mut tiles, value);
    if let ([first, second, third, suit], [b'k' | b'K' | b'a' | b'A', ..]) = (
        tiles.as_slice(),
        name,
    ) {
        let (first, suit) = (*first, *suit);
        if first == *second && first == *third && !is_digit(suit) {
            tiles.clear();
            add_all(&mut tiles, &[first, first, first, first, suit]);
        }
    }
    tiles
}

/// The word of a meld with these tiles.
fn meld_word(name: &[u8], tiles: &[u8]) -> &'static str {
    match (tiles, name) {
        ([_, _, _, _, _], [b'a' | b'A' | b'c' | b'C', ..]) => "ankan:",
        ([_, _, _, _, _], _) => "kan:",
        ([first, second, ..], _) => if first == second { "pon:" } else { "chi:" },
        _ => "pon:",
    }
}
