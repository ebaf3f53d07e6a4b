//! A line of a book as a deal.
ghost use Rattle.std.specs.Prelude.{◌≡◌, true, None, MatchOption};
ghost use Rattle.riichi_tiles.specs.Melds.{cut_at};
ghost use Rattle.desk_hall.specs.Deals as spec;
ghost use Rattle.desk_hall.specs.Playing.{IsNextDeal};

use riichi_tiles::split_at_mark;

/// The words before the line of a withdrawn deal.
const GONE: &[u8] = b"# withdrawn ";

/// The bytes of the longest line that can be handed in: withdrawn it has 4096.
pub const MOST_HANDED_IN: usize = 4084;

/// A deal: its line as it was handed in, and whether it was withdrawn.
#[derive(Clone, Copy)]
pub(crate) struct DealLine<'t> {
    pub(crate) line: &'t [u8],
    pub(crate) is_withdrawn: bool,
}

/// The deal that a line of a book says.
#[tactic(auto, unfolding(crate::specs::Deals::gone_words, crate::specs::Deals::says_gone))]
fn deal_of(line: &[u8]) -> DealLine<'_>
    ensures { spec.IsDealOf line.now (spec.deal_by result) }
{
    match line.strip_prefix(GONE) {
        None => DealLine {
            line,
            is_withdrawn: false,
        },
        Some(behind) => DealLine {
            line: behind,
            is_withdrawn: true,
        },
    }
}

/// The deal that a text begins with, and what comes behind its line; none where the first line isn't ended.
#[tactic(auto, using(crate::proofs::LineLemmas::next_is))]
pub(crate) fn next_deal(text: &[u8]) -> Option<(DealLine<'_>, &[u8])>
    ensures { MatchOption result (cut_at 10 text.now ≡ None)
        (λ found. IsNextDeal text.now (spec.deal_by found.0) found.1.now) }
{
    let (line, after) = split_at_mark(text, b'\n')?;
    Some((deal_of(line), after))
}

/// Whether a line can stand in a book as a live deal.
#[tactic(auto, unfolding(crate::specs::Deals::can_stand))]
pub(crate) fn can_stand(line: &[u8]) -> bool
    ensures { result ≡ spec.can_stand line.now }
{
    line.len() <= MOST_HANDED_IN && is_one_line(line) && !says_gone(line)
}

fn is_one_line(line: &[u8]) -> bool
    ensures { result ≡ spec.is_one_line line.now }
{
    line.iter().all(|byte| *byte != b'\n')
}

/// Whether a line begins as that of a withdrawn deal.
#[tactic(auto, unfolding(crate::specs::Deals::gone_words, crate::specs::Deals::says_gone))]
fn says_gone(line: &[u8]) -> bool
    ensures { result ≡ spec.says_gone line.now }
{
    line.strip_prefix(GONE).is_some()
}
