//! What stands where in the line of a win on a discard.
ghost use Rattle.std.specs.Prelude.{◌≡◌, None, Some, MatchOption, option_map};
ghost use Rattle.riichi_game_text.specs.Words.{said_in};
ghost use Rattle.riichi_game_text.specs.Wins.{said_win, win_at};
ghost use Rattle.riichi_game_text.specs.Rons as spec;

use crate::forms::riichi_at_end;
use crate::win::{WrittenWin, win_at};
use crate::words::next_said;

/// A win on a discard: who discarded, one winner to three, and the names of those who bet.
#[derive(Clone, Copy)]
pub(crate) struct RonForm<'a> {
    pub(crate) from: &'a [u8],
    pub(crate) first: WrittenWin<'a>,
    pub(crate) second: Option<WrittenWin<'a>>,
    pub(crate) third: Option<WrittenWin<'a>>,
    pub(crate) riichi: Option<&'a [u8]>,
}

/// The parts of the line. None where words are missing, too many or out of order.
pub(crate) fn ron_form(text: &[u8]) -> Option<RonForm<'_>>
    ensures { let form = spec.ron_form (said_in text.now) in
        MatchOption result (form ≡ None) (λ ron. form ≡ Some (spec.ron_read ron)) }
{
    let (name, rest) = next_said(text)?;
    let (key, rest) = next_said(rest)?;
    let (from, rest) = next_said(rest)?;
    if key != b"from".as_slice() {
        return None;
    }
    behind_from(name, from, rest)
}

fn behind_from<'a>(name: &'a [u8], from: &'a [u8], text: &'a [u8]) -> Option<RonForm<'a>>
    ensures { let form = spec.behind_first from.now (win_at name.now (said_in text.now)) in
        MatchOption result (form ≡ None) (λ ron. form ≡ Some (spec.ron_read ron)) }
{
    let (first, rest) = win_at(name, text)?;
    let (second, rest) = and_win(rest)?;
    let (third, rest) = and_win(rest)?;
    let riichi = riichi_at_end(rest)?;
    Some(RonForm {
        from,
        first,
        second,
        third,
        riichi,
    })
}

/// One winner more behind `and`, or none where another word comes next.
#[tactic(auto, unfolding(crate::specs::Rons::and_win))]
fn and_win(text: &[u8]) -> Option<(Option<WrittenWin<'_>>, &[u8])>
    ensures { let at = spec.and_win (said_in text.now) in
        MatchOption result (at ≡ None)
        (λ found. at ≡ Some (option_map said_win found.0, said_in found.1.now)) }
{
    let Some((word, rest)) = next_said(text) else {
        return Some((None, text));
    };
    if word != b"and".as_slice() {
        return Some((None, text));
    }
    let (name, rest) = next_said(rest)?;
    let (win, rest) = win_at(name, rest)?;
    Some((Some(win), rest))
}
