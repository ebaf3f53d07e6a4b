//! Laws over the definitions alone: which kinds bring a hand nearer, by the winning multisets
//! that lack least, and which discards a hand has.
ghost use Rattle.riichi_shape.specs.Choosing.{DiscardsLaw};
ghost use Rattle.riichi_shape.specs.Lacked.{AcceptanceLaw, FormsLaw, JoinLaw, OrphansLaw, PairsLaw};
ghost use Rattle.riichi_shape.specs.Ordered.{OrderLaw};
ghost use Rattle.riichi_shape.specs.Ready.{ReadyLaw};

/// One more tile of a kind lowers the distance exactly where some least winning multiset lacks
/// that kind.
pub fn acceptance()
    ensures { AcceptanceLaw }
{}

/// A kind is lacked at the least lack by sets and a pair, by seven pairs or by thirteen orphans,
/// each looked at alone.
pub fn forms()
    ensures { FormsLaw }
{}

/// Which kinds the least winning multisets by sets and a pair lack follows from the rows of the
/// hand alone.
pub fn joins()
    ensures { JoinLaw }
{}

/// The kinds that the least seven pairs lack, by the counts.
pub fn pairs()
    ensures { PairsLaw }
{}

/// The kinds that the least thirteen orphans lack, by the counts.
pub fn orphans()
    ensures { OrphansLaw }
{}

/// Thirteen tiles always lack one, so their shanten is never below 0; and it is 0 exactly where
/// some tile completes a winning multiset.
pub fn ready()
    ensures { ReadyLaw }
{}

/// Each discard of a hand stands before those with fewer live copies in all, and among those with
/// as many before those of greater kinds.
#[tactic(auto, using(crate::proofs::OrderLemmas::ordered))]
pub fn order()
    ensures { OrderLaw }
{}

/// A discard is in the list of a hand exactly where the hand holds its kind and without a tile of no
/// other kind lacks fewer, and it is the discard of that kind.
pub fn discards()
    ensures { DiscardsLaw }
{}
