//! The words of a line, loosely read.
ghost use Rattle.std.specs.Prelude.{◌≡◌, ◌+◌, ℕ, None, Some, IfSome, MatchOption, drop, take};
ghost use Rattle.std.specs.List.{position};
ghost use Rattle.riichi_hints.specs.Near.{is_mark, before_mark};

use crate::account::begins_note;
use crate::draft::{Draft, Passed};
use crate::foreign::translated;
use crate::names::{Meaning, meaning_of, nearest_meaning};
use crate::role::Role;
use crate::spelled::{are_of_meld, bracketed, lettered_meld, split_at_bracket, tile_by_number};
use crate::text::{Part, last};
use crate::tiles::{are_tiles, is_number, is_one_tile};
use crate::values::{by_of, is_concealed, is_negation, is_no, is_none, wind_named};
use riichi_hand::{JobName, Key, next_word};
use riichi_tiles::is_digit;

impl Draft {
    /// What the words of a line seem to say, up to a note; of a line with too many words the first.
    pub(crate) fn read(line: &[u8]) -> Draft {
        let mut draft = Draft::new();
        let mut rest = line;
        while let Some((word, after)) = next_word(rest) {
            if begins_note(word) || draft.roles.is_full() {
                break;
            }
            draft.look_ahead(after);
            let role = draft.read_word(word);
            let _ = draft.roles.try_push(role);
            rest = after;
        }
        if draft.is_odd || draft.meld_letter != 0 {
            draft.hand.clear();
        }
        draft
    }

    /// What stands behind a word.
    fn look_ahead(&mut self, line: &[u8]) {
        self.ahead = None;
        self.has_tiles_ahead = false;
        if let Some((word, after)) = next_word(line) {
            self.ahead = meaning_of(translated(word).as_slice());
            if let Some((tiles, _)) = next_word(after) {
                self.has_tiles_ahead = are_tiles(translated(tiles).as_slice());
            }
        }
    }

    fn read_word(&mut self, word: &[u8]) -> Role {
        let word = translated(word);
        let word = without_stop(word.as_slice());
        let passes = self.passes;
        self.passes = Passed::Nothing;
        match passes {
            Passed::Word => Role::Unread,
            Passed::Value if is_number(word) || wind_named(word).is_some() => Role::Unread,
            Passed::Reds if is_number(word) => self.put_red(word),
            Passed::MeldName => Role::Entry(Key::Open),
            Passed::Riichi if self.ahead.is_none() && (is_none(word) || is_negation(word)) => {
                self.put(Key::Riichi, b"0")
            }
            _ => self.read_said(word),
        }
    }

    fn read_said(&mut self, word: &[u8]) -> Role {
        match word {
            [b'+', tiles @ ..] => self.read_added(tiles),
            _ => match bracketed(word) {
                Some(tiles) if are_of_meld(tiles) => self.put_meld(b"", tiles),
                Some(inside) => self.read_entry(inside),
                None => self.read_with_meld(word),
            },
        }
    }

    /// A word, or tiles with a meld in brackets behind them.
    fn read_with_meld(&mut self, word: &[u8]) -> Role {
        match split_at_bracket(word) {
            Some((front, tiles)) => {
                let role = self.read_entry(front);
                self.put_meld(b"", tiles);
                role
            }
            None => self.read_entry(word),
        }
    }

    /// A word behind `+` is the winning tile, or one more flag.
    fn read_added(&mut self, word: &[u8]) -> Role {
        if are_tiles(word) && self.on.is_empty() {
            self.put(Key::On, word)
        } else {
            self.read_entry(word)
        }
    }

    /// A word with a key, or without. One that ends in its mark is as one without.
    fn read_entry(&mut self, word: &[u8]) -> Role {
        match cut_name(word) {
            None => self.read_bare(word),
            Some((name, [])) => self.read_bare(name),
            Some((name, value)) => self.read_named(name, value),
        }
    }

    fn read_named(&mut self, name: &[u8], value: &[u8]) -> Role {
        match nearest_meaning(name) {
            None => self.read_unknown(name, value),
            Some(Meaning::Hand) => self.read_tiles(value),
            Some(Meaning::Key(key)) => self.read_value(key, value),
            Some(Meaning::Meld) => self.put_meld(name, value),
            Some(Meaning::Job(_)) => self.put(Key::On, value),
            Some(Meaning::Red) => self.put_red(value),
            Some(Meaning::Unsaid) => Role::Unread,
            Some(meaning) => self.read_answer(meaning, value),
        }
    }

    /// A word with the winning tile as its value, or with yes or no.
    fn read_answer(&mut self, meaning: Meaning, value: &[u8]) -> Role {
        if is_no(value) {
            return Role::Unread;
        }
        let role = self.take(meaning);
        let is_won = role == Role::Entry(Key::By) && are_tiles(value);
        if is_won && self.put(Key::On, value) != Role::Unread {
            Role::Won
        } else {
            role
        }
    }

    /// Behind a name that isn't known: a wind is the seat unless the value says no; else the value may say how the hand is won.
    fn read_unknown(&mut self, name: &[u8], value: &[u8]) -> Role {
        if wind_named(name).is_some() && !is_no(value) {
            return self.put(Key::Seat, name);
        }
        match meaning_of(value) {
            Some(meaning @ (Meaning::By(_) | Meaning::Flag(_))) => self.take(meaning),
            _ => Role::Unread,
        }
    }

    /// The value of `hand` is its tiles, or a meld.
    fn read_tiles(&mut self, value: &[u8]) -> Role {
        self.key = None;
        match cut_name(value) {
            Some((name, tiles)) => self.put_meld(name, tiles),
            None => self.put_hand(value),
        }
    }

    /// The value of `open` or `flags` is a word of its own. A value may repeat its key, or say that there is nothing.
    fn read_value(&mut self, key: Key, value: &[u8]) -> Role {
        self.key = Some(key);
        if is_none(value) && !matches!(key, Key::On | Key::By | Key::Seat | Key::Round) {
            return Role::Unread;
        }
        match cut_name(value) {
            Some((name, more)) => match meaning_of(name) {
                Some(Meaning::Key(again)) if again == key => self.put(key, more),
                _ => self.put_meld(name, more),
            },
            None => match (key, meaning_of(value)) {
                (Key::Flags, Some(Meaning::Key(key))) => self.read_key(key),
                (Key::Flags | Key::Open, Some(meaning)) => self.take(meaning),
                _ => self.put_value(key, value),
            },
        }
    }

    /// The value of a key; of `open` a meld may be told by a letter, or in brackets.
    fn put_value(&mut self, key: Key, value: &[u8]) -> Role {
        let value = bracketed(value).unwrap_or(value);
        match (key, lettered_meld(value)) {
            (Key::Open, Some((name, tiles))) => self.put_meld(name, tiles),
            _ => self.put(key, value),
        }
    }

    /// A word without a key: how the hand is won behind `by`, what takes the next word back, a name, or else a value.
    fn read_bare(&mut self, word: &[u8]) -> Role {
        if self.key == Some(Key::By) && self.by.is_empty() && by_of(word) != "?" {
            return self.put(Key::By, word);
        }
        if is_negation(word) {
            self.passes = Passed::Word;
            return Role::Unread;
        }
        if is_concealed(word) && self.ahead == Some(Meaning::Meld) {
            self.has_concealed = true;
            return Role::Entry(Key::Open);
        }
        match self.meaning_here(word) {
            Some(Meaning::Key(key)) => self.read_key(key),
            Some(Meaning::Meld) => self.name_meld(first(word)),
            Some(meaning) => self.take(meaning),
            None => self.read_loose(word),
        }
    }

    /// What a word means without a value: `red` may be of a dragon, and the tile of `dora tile` is an indicator.
    fn meaning_here(&self, word: &[u8]) -> Option<Meaning> {
        match (word, self.key) {
            (b"red" | b"reds", _) => Some(Meaning::Unsaid),
            (b"tile", Some(Key::Dora)) if self.dora.is_empty() => Some(Meaning::Key(Key::Dora)),
            (b"tile", Some(Key::Ura)) if self.ura.is_empty() => Some(Meaning::Key(Key::Ura)),
            _ => meaning_of(word),
        }
    }

    /// The name of a key: `riichi` says yes by itself, unless it is the riichi of sticks, and the dora of `ura dora` is below.
    fn read_key(&mut self, key: Key) -> Role {
        match key {
            Key::Riichi if self.ahead == Some(Meaning::Key(Key::Sticks)) => Role::Entry(
                Key::Sticks,
            ),
            Key::Riichi => {
                self.riichi = self.riichi.max(1);
                self.passes = Passed::Riichi;
                self.name(Key::Riichi)
            }
            Key::Dora if self.key == Some(Key::Ura) && self.ura.is_empty() => self.name(Key::Ura),
            _ => self.name(key),
        }
    }

    /// A word without a name is the value of the key before it, or belongs to the hand.
    fn read_loose(&mut self, word: &[u8]) -> Role {
        match self.key {
            Some(key) if self.wants(key, word) => self.put_value(key, word),
            _ => self.read_free(word),
        }
    }

    /// Whether a word can be the value of the key before it.
    fn wants(&self, key: Key, word: &[u8]) -> bool {
        match key {
            Key::On => self.on.is_empty() && self.is_tile(word),
            Key::Seat => self.seat.is_empty() && wind_named(word).is_some(),
            Key::Round => self.round.is_empty() && wind_named(word).is_some(),
            Key::Counters => self.counters.is_empty() && is_number(word),
            Key::Sticks => self.sticks.is_empty() && is_number(word),
            Key::Riichi => matches!(word, [b'0' | b'1' | b'2']),
            Key::By | Key::Flags => false,
            Key::Open | Key::Dora | Key::Ura | Key::Seen => self.is_tile(word) || are_tiles(word),
        }
    }

    /// Whether a word is one tile: a number too, where the hand has such.
    fn is_tile(&self, word: &[u8]) -> bool {
        is_one_tile(word) || self.has_numbers && tile_by_number(word).is_some()
    }

    /// A word that no key before it wants: a meld, the winning tile behind the whole hand of a win, the value of the key behind it,
    /// tiles of the hand, or a wind.
    fn read_free(&mut self, word: &[u8]) -> Role {
        if let Some((name, tiles)) = lettered_meld(word) {
            self.put_meld(name, tiles)
        } else if self.is_before_name(word) {
            self.passes = Passed::MeldName;
            self.put_meld(b"", word)
        } else if self.is_winning(word) {
            self.put(Key::On, word)
        } else if let Some(key) = self.key_ahead(word) {
            self.put(key, word)
        } else if self.is_of_hand(word) {
            self.put_hand(word)
        } else if let Some(tile) = self.numbered(word) {
            self.has_numbers = true;
            self.put_hand(tile.as_slice());
            Role::Numbered
        } else if wind_named(word).is_some() && !is_number(word) {
            self.put_wind(word)
        } else {
            self.read_glued(word)
        }
    }

    /// Whether a word is the tiles of a meld whose name is the next word, which has none behind it.
    fn is_before_name(&self, word: &[u8]) -> bool {
        self.ahead == Some(Meaning::Meld) && !self.has_tiles_ahead && are_of_meld(word)
    }

    /// Whether a word is one tile behind the whole hand of a win.
    fn is_winning(&self, word: &[u8]) -> bool {
        self.job == Some(JobName::Win)
            && self.on.is_empty()
            && self.is_tile(word)
            && self.hand_count() == self.wanted()
            && !(wind_named(word).is_some() && self.ahead_is_wind_key())
    }

    fn ahead_is_wind_key(&self) -> bool {
        matches!(self.ahead, Some(Meaning::Key(Key::Seat | Key::Round)))
    }

    /// The key whose name is the next word, where this word is its value: `south seat`, `2 honba`.
    fn key_ahead(&self, word: &[u8]) -> Option<Key> {
        match self.ahead {
            Some(Meaning::Key(key @ (Key::Seat | Key::Round))) if wind_named(word).is_some() =>
                Some(key),
            Some(Meaning::Key(key @ (Key::Counters | Key::Sticks))) if is_number(word) => Some(key),
            _ => None,
        }
    }

    /// Whether a word is tiles of the hand: before any key, or where the hand has none yet.
    fn is_of_hand(&self, word: &[u8]) -> bool {
        let is_open = self.key.is_none() || self.hand.is_empty();
        is_open && !self.is_behind_hand(word) && (are_tiles(word) || self.goes_on(word))
    }

    /// Whether a word is a wind behind the whole hand of a win, and no tile of it.
    fn is_behind_hand(&self, word: &[u8]) -> bool {
        matches!(self.job, Some(JobName::Win) | None)
            && self.hand_count() >= self.wanted()
            && wind_named(word).is_some()
    }

    /// Whether a word is a digit of a hand that isn't whole, or the letter of the digits before it.
    fn goes_on(&self, word: &[u8]) -> bool {
        let is_behind_digit = is_digit(last(self.hand.as_slice()));
        match word {
            [b'0'..=b'9'] => {
                self.hand_count() < self.wanted() || self.job == Some(JobName::Shape)
            }
            [b'm' | b'p' | b's' | b'z'] => is_behind_digit,
            _ => false,
        }
    }

    /// A tile by its number, where the hand has none or such alone.
    fn numbered(&self, word: &[u8]) -> Option<Part> {
        if self.has_numbers || self.hand.is_empty() {
            tile_by_number(word)
        } else {
            None
        }
    }

    /// A name with its value right behind it, as `dora4s`, `ron5s` and `pon777z`, or a number before it, as `2honba`.
    fn read_glued(&mut self, word: &[u8]) -> Role {
        let at = word.iter().position(|byte| is_digit(*byte)).unwrap_or(0);
        if at == 0 {
            return self.read_counted(word);
        }
        let (name, value) = (&word[..at], &word[at..]);
        match meaning_of(name) {
            Some(Meaning::Key(Key::Riichi)) => self.put(Key::Riichi, value),
            Some(Meaning::Key(key)) => self.put(key, value),
            Some(Meaning::Meld) => self.put_meld(name, value),
            Some(Meaning::Red) => self.put_red(value),
            Some(meaning @ Meaning::By(_)) if are_tiles(value) => self.read_answer(meaning, value),
            _ => Role::Unread,
        }
    }

    /// A number with the name of its key right behind it.
    fn read_counted(&mut self, word: &[u8]) -> Role {
        let at = word.iter().position(|byte| !is_digit(*byte)).unwrap_or(0);
        match meaning_of(&word[at..]) {
            Some(Meaning::Key(key @ (Key::Counters | Key::Sticks))) => self.put(key, &word[..at]),
            _ => Role::Unread,
        }
    }
}

/// The first letter of a word, 0 where there is none.
fn first(word: &[u8]) -> u8 {
    match word {
        [first, ..] => *first,
        [] => 0,
    }
}

/// A word without the full stop behind it.
fn without_stop(word: &[u8]) -> &[u8] {
    match word {
        [front @ .., b'.' | b'!' | b'?'] if !front.is_empty() => front,
        _ => word,
    }
}

/// The name before the first `=` or `:`, and what comes after it.
pub(crate) fn cut_name(word: &[u8]) -> Option<(&[u8], &[u8])>
    ensures name { IfSome result (λ cut. cut.0.now ≡ before_mark word.now) }
    ensures cut { MatchOption result (position is_mark word.now ≡ None)
        (λ cut. (at : ℕ) × (position is_mark word.now ≡ Some at)
        × (cut.0.now ≡ take at word.now) × (cut.1.now ≡ drop (at + 1) word.now)) }
{
    let at = mark_at(word)?;
    Some((&word[..at], &word[at + 1..]))
}

fn mark_at(word: &[u8]) -> Option<usize>
    ensures { result ≡ position is_mark word.now }
{
    word.iter().position(|byte| *byte == b'=' || *byte == b':')
}
