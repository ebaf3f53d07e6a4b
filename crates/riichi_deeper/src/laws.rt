//! Laws over the definitions alone.
ghost use Rattle.riichi_deeper.specs.CallLaws.{AcceptedCallLaw, KongLaw, NearerByOneLaw, SwapLaw};

#[tactic(auto, using(crate::proofs::CallLemmas::accepted_calls))]
/// Only a kind that is accepted can be called to a gain.
pub fn accepted_calls()
    ensures { AcceptedCallLaw }
{}

#[tactic(auto, using(crate::proofs::CallLemmas::by_one))]
/// A call lowers the distance by at most one.
pub fn nearer_by_one()
    ensures { NearerByOneLaw }
{}

#[tactic(auto, using(crate::proofs::CallLemmas::kongs))]
/// A kong brings nothing nearer.
pub fn kongs()
    ensures { KongLaw }
{}

/// A tile that the rule against swap calling forbids to throw is no gain: one of the called kind, or the other end of the run,
/// as 2s where 34s called 5s. The hand had the set before.
#[tactic(auto, using(crate::proofs::CallLemmas::swap_calls))]
pub fn swap_calls()
    ensures { SwapLaw }
{}
