//! Laws of the definitions that the contracts cite.

ghost use Rattle.std.specs.Prelude.{◌≡◌, ◌↔◌, ◌≤ℤ◌, pos, ℕ, List};
ghost use Rattle.riichi_tiles.specs.Tiles.{IsCounts};
ghost use Rattle.riichi_hand.specs.Hand.{IsHand};
ghost use Rattle.riichi_hand.specs.HandParts.{HandParts};
ghost use Rattle.riichi_shape.specs.EveryWinning.{shanten_of};
ghost use Rattle.desk_core.specs.History.{Turn, IsLegal};
ghost use Rattle.desk_core.specs.Determined.{IsRunOf};
ghost use Rattle.desk_core.specs.Continued.{CanGoOn};
ghost use Rattle.desk_core.specs.Ready.{HasWait};
ghost use Rattle.desk_core.specs.declared.event.Event.{Event};
ghost use Rattle.desk_core.specs.declared.reply.Reply.{Reply};

/// Two runs of the same events that meet no want of memory have the same replies.
pub fn replies_are_determined()
    ensures { (tables : ℕ) (events : List Event) (first second : List Reply)
        → IsRunOf tables events first → IsRunOf tables events second → first ≡ second }
{}

/// Whatever events follow a legal history, they have replies, and none of these is a want of memory.
#[tactic(auto, using(crate::proofs::Continued::CanGoOn_legal))]
pub fn each_history_goes_on()
    ensures { (tables : ℕ) (history : List Turn) → IsLegal tables history → CanGoOn tables history }
{}

/// A hand of thirteen tiles, with at most four of a kind, is ready (its shanten is 0) exactly where
/// it waits for some tile; and its shanten is never below 0.
#[tactic(auto, using(crate::proofs::ReadyAndWaiting::ready_iff, crate::proofs::ReadyAndWaiting::never_below))]
pub fn ready_exactly_where_it_waits()
    ensures ready { (hand : HandParts) → IsCounts hand.concealed → IsHand hand
        → (shanten_of hand.concealed hand.melds ≡ pos 0) ↔ HasWait hand }
    ensures never_below { (hand : HandParts) → IsCounts hand.concealed → IsHand hand
        → pos 0 ≤ℤ shanten_of hand.concealed hand.melds }
{}
