//! Laws of the definitions that the contracts cite, each as the contract of a function.
ghost use Rattle.riichi_split.specs.Laws.{EachCollectionHasOneOrder};

/// Each collection of sets stands in order in one list, and in no other. So two readings with the
/// same sets, pair and completed block are one value.
#[tactic(auto, using(crate::proofs::Orders::one_order))]
pub fn each_collection_has_one_order()
    ensures { EachCollectionHasOneOrder }
{}
