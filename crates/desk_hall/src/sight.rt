//! What a book has at a number.
ghost use Rattle.std.specs.Prelude.{◌≡◌, ◌-◌, ◌≤◌, MatchOption, option_map, length, take};
ghost use Rattle.desk_hall.specs.Books.{Book, IsBookText};
ghost use Rattle.desk_hall.specs.Deals.{deal_by, deals_text};
ghost use Rattle.desk_hall.specs.Decided as spec;
ghost use Rattle.desk_hall.specs.Fronts.{first_front};
ghost use Rattle.desk_hall.specs.Playing.{MeetsFault};
ghost use Rattle.desk_hall.specs.Seeing.{seen_by, IsSeen};

use crate::deal::{DealLine, next_deal};
use crate::decision::{Decision, at_live, at_next};
use crate::played::{before_first, play_on, with_deal};
use crate::position::Position;

/// What a book has at a number.
#[derive(Clone, Copy)]
pub(crate) struct Sight<'t, P> {
    /// How far the game has come by the live deals before the number.
    pub(crate) front: P,
    /// The deal that has the number.
    pub(crate) deal: Option<DealLine<'t>>,
    /// The number that the next deal has.
    pub(crate) next: u64,
    /// The number of the last live deal, or 0.
    pub(crate) last_live: u64,
    /// Where the deal of the number begins in the text, or would.
    pub(crate) place: usize,
}

/// Looks into the text of a book; none where it is no book's.
pub(crate) fn look<'t, P: Position>(start: &P, text: &'t [u8], number: u64) -> Option<Sight<'t, P>>
    ensures { MatchOption result (MeetsFault P.reads (first_front start.now) text.now)
        (λ sight. IsSeen P.reads start.now text.now number sight) }
{
    let most = Some(number.saturating_sub(1));
    let Some((front, rest)) = play_on(&before_first(start), text, most) else {
        return None;
    };
    let place = text.len() - rest.len();
    if rest.is_empty() {
        return Some(Sight {
            front: front.position,
            deal: None,
            next: front.count + 1,
            last_live: front.last_live,
            place,
        });
    }
    let Some((deal, behind)) = next_deal(rest) else {
        return None;
    };
    let Some(next) = with_deal(&front, deal) else {
        return None;
    };
    let Some((whole, _)) = play_on(&next, behind, None) else {
        return None;
    };
    Some(Sight {
        front: front.position,
        deal: Some(deal),
        next: whole.count + 1,
        last_live: whole.last_live,
        place,
    })
}

/// What a line comes to that is handed in at the number.
#[tactic(auto, unfolding(crate::specs::Decided::line_decided))]
pub(crate) fn line_decided<P: Position>(
    sight: &Sight<'_, P>,
    number: u64,
    line: &[u8],
) -> Decision<P>
    ensures { result ≡ spec.line_decided P.reads P.same (seen_by sight.now) number line.now }
{
    if number == 0 {
        return Decision::NoDeal;
    }
    if number > sight.next {
        return Decision::Early;
    }
    match sight.deal {
        None => at_next(&sight.front, line),
        Some(deal) if deal.is_withdrawn => Decision::Gone,
        Some(deal) => at_live(&sight.front, deal.line, line),
    }
}

/// What the withdrawal of the number does.
#[tactic(auto, unfolding(crate::specs::Decided::withdrawal_decided))]
pub(crate) fn withdrawal_decided<P: Position>(sight: &Sight<'_, P>, number: u64) -> Decision<P>
    ensures { result ≡ spec.withdrawal_decided (seen_by sight.now) number }
{
    if number == 0 {
        return Decision::NoDeal;
    }
    match sight.deal {
        None => Decision::NoDeal,
        Some(deal) if deal.is_withdrawn => Decision::GoneAlready,
        Some(_) if sight.last_live == number => Decision::Withdrawn,
        Some(_) => Decision::NotLast,
    }
}
