//! The deals of a book, played one after another.
ghost use Rattle.std.specs.Prelude.{◌≡◌, ◌⊎◌, ◌+◌, ◌≤◌, [], true, false, length, MatchOption};
ghost use Rattle.desk_hall.specs.Deals.{deal_by};
ghost use Rattle.desk_hall.specs.Fronts as fronts;
ghost use Rattle.desk_hall.specs.Playing as spec;

use crate::deal::{DealLine, next_deal};
use crate::position::Position;

/// A front of the deals of a book.
#[derive(Clone, Copy)]
pub(crate) struct Played<P> {
    /// How far the game has come by the live deals of the front.
    pub(crate) position: P,
    /// How many deals the front has.
    pub(crate) count: u64,
    /// The number of the last live one, or 0.
    pub(crate) last_live: u64,
}

/// Before the first deal.
pub(crate) fn before_first<P: Position>(start: &P) -> Played<P>
    ensures { spec.front_in result ≡ fronts.first_front start.now }
{
    Played {
        position: *start,
        count: 0,
        last_live: 0,
    }
}

/// Goes on from a front of a book until it has so many deals, or to the end of the text where nothing is said: the front, and the text
/// behind it; none where a line isn't ended, or the game refuses a live deal.
pub(crate) fn play_on<'t, P: Position>(
    from: &Played<P>,
    text: &'t [u8],
    most: Option<u64>,
) -> Option<(Played<P>, &'t [u8])>
    requires room { from.now.count + length text.now ≤ 18446744073709551615 }
    requires few { spec.MayHave most from.now.count }
    ensures { MatchOption result
        (spec.MeetsFault P.reads (spec.front_in from.now) text.now)
        (λ played. spec.PlaysOn P.reads (spec.front_in from.now) text.now most
        (spec.front_in played.0) played.1.now) }
{
    let mut played = *from;
    let mut rest = text;
    while !stops(played.count, rest, most) {
        let Some((deal, after)) = next_deal(rest) else {
            return None;
        };
        let Some(next) = with_deal(&played, deal) else {
            return None;
        };
        played = next;
        rest = after;
    }
    Some((played, rest))
}

/// Whether no text is left, or there are as many deals as were asked for.
fn stops(count: u64, rest: &[u8], most: Option<u64>) -> bool
    ensures yes { result ≡ true → (rest.now ≡ []) ⊎ spec.HasSoMany most count }
    ensures text { result ≡ false → rest.now ≡ [] → ⊥ }
    ensures no { result ≡ false → spec.MayHave most count → spec.MayHave most (count + 1) }
{
    match most {
        Some(most) => rest.is_empty() || count == most,
        None => rest.is_empty(),
    }
}

/// With one deal more; none where the game refuses it.
pub(crate) fn with_deal<P: Position>(played: &Played<P>, deal: DealLine<'_>) -> Option<Played<P>>
    requires { played.now.count + 1 ≤ 18446744073709551615 }
    ensures { MatchOption result
        (fronts.game_accepts P.reads played.now.position (deal_by deal.entry) ≡ false)
        (λ next. (fronts.game_accepts P.reads played.now.position (deal_by deal.entry) ≡ true)
        × (spec.front_in next ≡ fronts.behind_deal P.reads (spec.front_in played.now) (deal_by deal.entry))) }
{
    let count = played.count + 1;
    if deal.is_withdrawn {
        return Some(Played {
            position: played.position,
            count,
            last_live: played.last_live,
        });
    }
    match played.position.read(deal.line) {
        None => None,
        Some(position) => Some(Played {
            position,
            count,
            last_live: count,
        }),
    }
}
