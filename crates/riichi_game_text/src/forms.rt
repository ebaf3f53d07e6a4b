//! What stands where in a line of a game, before any name is looked at.
ghost use Rattle.std.specs.Prelude.{◌≡◌, ◌<◌, ◌≤◌, None, Some, MatchOption, option_map, length};
ghost use Rattle.riichi_game_text.specs.Words.{said_in};
ghost use Rattle.riichi_game_text.specs.Forms as spec;

use crate::words::next_said;

/// The parts of the line of a draw: lists of names.
#[derive(Clone, Copy)]
pub(crate) struct DrawForm<'a> {
    pub(crate) ready: Option<&'a [u8]>,
    pub(crate) nagashi: Option<&'a [u8]>,
    pub(crate) riichi: Option<&'a [u8]>,
}

/// The word behind a key, where the key comes next, and what stands behind. None where the key has no word.
#[tactic(auto, unfolding(crate::specs::Forms::part_at))]
pub(crate) fn part_at<'a>(key: &[u8], text: &'a [u8]) -> Option<(Option<&'a [u8]>, &'a [u8])>
    ensures { let part = spec.part_at key.now (said_in text.now) in
        MatchOption result (part ≡ None)
        (λ found. part ≡ Some (option_map (λ word. word.now) found.0, said_in found.1.now)) }
{
    let Some((word, rest)) = next_said(text) else {
        return Some((None, text));
    };
    if word != key {
        return Some((None, text));
    }
    let (said, rest) = next_said(rest)?;
    Some((Some(said), rest))
}

/// The names behind `riichi`, which stand at the end of a line, or none. None too where something else stands there.
#[tactic(auto, unfolding(crate::specs::Forms::riichi_at_end))]
pub(crate) fn riichi_at_end(text: &[u8]) -> Option<Option<&[u8]>>
    ensures { let riichi = spec.riichi_at_end (said_in text.now) in
        MatchOption result (riichi ≡ None)
        (λ names. riichi ≡ Some (option_map (λ names. names.now) names)) }
{
    let (names, rest) = part_at(b"riichi", text)?;
    if next_said(rest).is_some() {
        return None;
    }
    Some(names)
}

/// The parts of the line of a draw.
#[tactic(auto, unfolding(crate::specs::Forms::draw_form))]
pub(crate) fn draw_form(text: &[u8]) -> Option<DrawForm<'_>>
    ensures { let form = spec.draw_form (said_in text.now) in
        MatchOption result (form ≡ None) (λ draw. form ≡ Some (spec.draw_as_read draw)) }
{
    let (ready, rest) = part_at(b"ready", text)?;
    let (nagashi, rest) = part_at(b"nagashi", rest)?;
    let riichi = riichi_at_end(rest)?;
    Some(DrawForm {
        ready,
        nagashi,
        riichi,
    })
}

/// The word of a line that has one.
pub(crate) fn name_form(text: &[u8]) -> Option<&[u8]>
    ensures { option_map (λ name. name.now) result ≡ spec.name_form (said_in text.now) }
{
    let (name, rest) = next_said(text)?;
    if next_said(rest).is_some() {
        return None;
    }
    Some(name)
}
