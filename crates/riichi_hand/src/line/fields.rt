//! What the words after the hand say.
ghost use Rattle.std.specs.Prelude.{◌≡◌, ◌||◌, is_some, option_map, IfErr, OnOk};
ghost use Rattle.riichi_hand.specs.Keys.{value_for_key};
ghost use Rattle.riichi_hand.specs.Faults.{IsValueOrFirstFault};
ghost use Rattle.riichi_hand.specs.Lines.{entry_faults};
ghost use Rattle.riichi_hand.specs.Parts.{parts_in};
ghost use Rattle.riichi_hand.specs.Entries.{first_or, is_again, KeepsFirstMark};
ghost use Rattle.riichi_hand.specs.Words.{from_words};
ghost use Rattle.riichi_hand.specs.Places.{entry_from};

use super::cuts::without_spaces;
use super::entry::Entry;
use super::flags::read_flags;
use super::key::Key;
use super::values::{read_by, read_number, read_riichi, read_wind};
use super::words::Words;
use crate::fault::{LineCode, LineFault};
use crate::win::{By, Flags, Wind};

/// The first value of each key, where it has one, and where a key came again. The texts of tiles and of melds are
/// read later, since they have faults of their own.
#[derive(Clone, Copy)]
pub(crate) struct Fields<'a> {
    /// From the word on at which the words are at fault: where a key came again, or else a word is no entry.
    pub(crate) at_fault: Option<&'a [u8]>,
    pub(crate) on: Option<&'a [u8]>,
    pub(crate) by: Option<By>,
    pub(crate) seat: Option<Wind>,
    pub(crate) round: Option<Wind>,
    pub(crate) melds: Option<&'a [u8]>,
    pub(crate) riichi: Option<u8>,
    pub(crate) flags: Option<Flags>,
    pub(crate) dora: Option<&'a [u8]>,
    pub(crate) ura: Option<&'a [u8]>,
    pub(crate) counters: Option<u8>,
    pub(crate) sticks: Option<u8>,
    pub(crate) seen: Option<&'a [u8]>,
}

impl<'a> Fields<'a> {
    ghost use Rattle.std.specs.Prelude.{[]};
    ghost use Rattle.riichi_hand.specs.declared.fault.LineFault.{LineFault};
    ghost use Rattle.riichi_hand.specs.declared.line.job_name.JobName.{JobName};
    ghost use Rattle.riichi_hand.specs.Entries.{Entries, Holds, entries_of, with_keyed};

    /// No values.
    pub(crate) fn new() -> Fields<'a>
        ensures { (job : JobName) → Holds result (entries_of job []) }
    {
        Fields {
            at_fault: None,
            on: None,
            by: None,
            seat: None,
            round: None,
            melds: None,
            riichi: None,
            flags: None,
            dora: None,
            ura: None,
            counters: None,
            sticks: None,
            seen: None,
        }
    }

    /// Takes the words of a line, or answers H4 where one is no entry of the job, H5 where a key stands twice.
    #[inline(never)]
    pub(crate) fn fill(&mut self, words: &Words<'a>) -> Result<(), LineFault>
        requires { (job : JobName) → Holds self.old (entries_of job []) }
        ensures step { let parts = parts_in words.now in
            IsValueOrFirstFault result (entry_faults parts) (λ _. Holds self.new parts.entries) }
        ensures from { let from = option_map (λ from. from.now) self.new.at_fault in
            let froms = from_words words.now.entries.now in
            IfErr result (λ fault. from ≡ entry_from words.now.job fault froms) }
        ensures none { let from = option_map (λ from. from.now) self.new.at_fault in
            let froms = from_words words.now.entries.now in
            OnOk result ((fault : LineFault) → from ≡ entry_from words.now.job fault froms) }
    {
        let mut rest = without_spaces(words.entries);
        while !rest.is_empty() {
            let Some(entry) = Entry::first(words.job, rest) else {
                self.at_fault = Some(rest);
                return Err(LineFault::Line(LineCode::H4));
            };
            if !self.put(entry.key, entry.value, rest) {
                self.at_fault = Some(rest);
                return Err(LineFault::Line(LineCode::H4));
            }
            rest = without_spaces(entry.after);
        }
        if self.at_fault.is_some() {
            return Err(LineFault::Line(LineCode::H5));
        }
        Ok(())
    }

    /// Puts the value of one more key in its place, whose word begins here. Answers whether the text is a value of the key.
    fn put(&mut self, key: Key, text: &'a [u8], from: &'a [u8]) -> bool
        ensures answer { result ≡ is_some (value_for_key key text.now) }
        ensures holds { (entries : Entries) → Holds self.old entries
            → Holds self.new (with_keyed entries (key, text.now)) }
        ensures from { KeepsFirstMark self.old.at_fault from.entry self.new.at_fault }
    {
        let again = &mut self.at_fault;
        match key {
            Key::On => keep(&mut self.on, Some(text), from, again),
            Key::By => keep(&mut self.by, read_by(text), from, again),
            Key::Seat => keep(&mut self.seat, read_wind(text), from, again),
            Key::Round => keep(&mut self.round, read_wind(text), from, again),
            Key::Open => keep(&mut self.melds, Some(text), from, again),
            Key::Riichi => keep(&mut self.riichi, read_riichi(text), from, again),
            Key::Flags => keep(&mut self.flags, read_flags(text), from, again),
            Key::Dora => keep(&mut self.dora, Some(text), from, again),
            Key::Ura => keep(&mut self.ura, Some(text), from, again),
            Key::Counters => keep(&mut self.counters, read_number(text), from, again),
            Key::Sticks => keep(&mut self.sticks, read_number(text), from, again),
            Key::Seen => keep(&mut self.seen, Some(text), from, again),
        }
    }
}

/// Keeps a value that is the first of its key, and marks where one came again first. Answers whether there is a value.
fn keep<'a, T: Copy>(
    place: &mut Option<T>,
    value: Option<T>,
    from: &'a [u8],
    again: &mut Option<&'a [u8]>,
) -> bool
    ensures answer { result ≡ is_some value }
    ensures first { place.new ≡ first_or place.old value }
    ensures again { is_some again.new ≡ (is_again place.old value || is_some again.old) }
    ensures from { KeepsFirstMark again.old from.entry again.new }
{
    if value.is_none() {
        return false;
    }
    if place.is_none() {
        *place = value;
    } else if again.is_none() {
        *again = Some(from);
    }
    true
}
