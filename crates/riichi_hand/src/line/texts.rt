//! The notation texts and the melds of a line.
ghost use Rattle.std.specs.Prelude.{◌≡◌, [], None, Some, MatchResult, option_map, replicate, if◌then◌else◌};
ghost use Rattle.riichi_tiles.specs.Notation.{counts_of};
ghost use Rattle.riichi_hand.specs.Faults.{IsValueOrFirstFault};
ghost use Rattle.riichi_hand.specs.Lines.{text_faults};
ghost use Rattle.riichi_hand.specs.Parts.{parts_in};
ghost use Rattle.riichi_hand.specs.Entries.{Holds};
ghost use Rattle.riichi_hand.specs.Texts.{text_fault, counts_if_given, melds_if_given};

use super::fields::Fields;
use super::open::read_melds;
use super::words::Words;
use crate::fault::{LineCode, LineFault, TextName};
use riichi_tiles::{Counts, Melds, read_into};

/// What the notation texts and the melds of a line spell.
#[derive(Clone, Copy)]
pub(crate) struct Texts {
    pub(crate) hand: Counts,
    pub(crate) on: Counts,
    pub(crate) dora: Counts,
    pub(crate) ura: Counts,
    pub(crate) seen: Counts,
    pub(crate) melds: Melds,
}

impl Texts {
    ghost use Rattle.riichi_hand.specs.Texts.{texts_of, no_texts};

    /// No tiles.
    pub(crate) fn new() -> Texts
        ensures { result ≡ no_texts }
    {
        Texts {
            hand: Counts::new(),
            on: Counts::new(),
            dora: Counts::new(),
            ura: Counts::new(),
            seen: Counts::new(),
            melds: Melds::new(),
        }
    }

    /// Reads the texts of a line, or answers the fault of the first text that has one, and last H7 for the melds.
    #[inline(never)]
    pub(crate) fn spell(&mut self, words: &Words<'_>, fields: &Fields<'_>) -> Result<(), LineFault>
        requires none { self.old ≡ no_texts }
        requires holds { Holds fields.now (parts_in words.now).entries }
        ensures { let parts = parts_in words.now in
            IsValueOrFirstFault result (text_faults parts) (λ _. self.new ≡ texts_of parts) }
    {
        read_text(&mut self.hand, TextName::Hand, words.hand)?;
        read_optional(&mut self.on, TextName::On, fields.on)?;
        read_optional(&mut self.dora, TextName::Dora, fields.dora)?;
        read_optional(&mut self.ura, TextName::Ura, fields.ura)?;
        read_optional(&mut self.seen, TextName::Seen, fields.seen)?;
        if !read_open(&mut self.melds, fields.melds) {
            return Err(LineFault::Line(LineCode::H7));
        }
        Ok(())
    }
}

/// Puts the tiles of a notation text where none were, or returns its fault.
fn read_text(counts: &mut Counts, name: TextName, text: &[u8]) -> Result<(), LineFault>
    requires none { counts.old ≡ replicate 34 0 }
    ensures { MatchResult result
        (λ _. (text_fault name (Some text.now) ≡ None) × (counts.new ≡ counts_of text.now))
        (λ fault. text_fault name (Some text.now) ≡ Some fault) }
{
    match read_into(counts, text) {
        Ok(()) => Ok(()),
        Err(fault) => Err(LineFault::Notation(name, fault)),
    }
}

/// Leaves no tiles where the text is missing.
#[inline(always)]
fn read_optional(counts: &mut Counts, name: TextName, text: Option<&[u8]>) -> Result<(), LineFault>
    requires { counts.old ≡ replicate 34 0 }
    ensures { let text = option_map (λ text. text.now) text.entry in MatchResult result
        (λ _. (text_fault name text ≡ None) × (counts.new ≡ counts_if_given text))
        (λ fault. text_fault name text ≡ Some fault) }
{
    match text {
        None => Ok(()),
        Some(text) => read_text(counts, name, text),
    }
}

/// Puts the melds of a value where none were, and leaves none where it is missing. Answers whether they are melds.
fn read_open(melds: &mut Melds, value: Option<&[u8]>) -> bool
    requires none { melds.old ≡ [] }
    ensures { (if result then Some melds.new else None)
        ≡ melds_if_given (option_map (λ value. value.now) value.entry) }
{
    match value {
        None => true,
        Some(value) => read_melds(melds, value),
    }
}
