//! Laws over the definitions alone.
ghost use Rattle.riichi_worth.specs.Laws.{CountedLaw, FewLaw};

/// What was thrown on the way can be forgotten: the hand, the turns that are left and the number of unseen tiles tell the points.
#[tactic(auto, using(crate::proofs::PointLaws::counted_law))]
pub fn hand_and_turns()
    ensures { CountedLaw }
{}

/// A hand is worth no more than the dearest win.
#[tactic(auto, using(crate::proofs::PointLaws::few_law))]
pub fn no_more_than_the_dearest()
    ensures { FewLaw }
{}
