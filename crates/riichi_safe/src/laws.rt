//! Laws over the definitions alone: what the answers say of every hidden hand.
ghost use Rattle.riichi_safe.specs.SafeLaws.{PassedLaw, SujiLaw, WallLaw};

/// On a kind that the threatening player has thrown, or that was passed since its riichi, no hidden hand wins by ron.
#[tactic(auto, using(crate::proofs::SafeLemmas::passed))]
pub fn passed()
    ensures { PassedLaw }
{}

/// A hidden hand that waits for both kinds of a two-sided wait wins on neither, where the answer calls it suji.
#[tactic(auto, using(crate::proofs::SafeLemmas::suji))]
pub fn suji()
    ensures { SujiLaw }
{}

/// Where the answer calls a two-sided wait a wall, no hidden hand holds the two tiles for it.
#[tactic(auto, using(crate::proofs::SafeLemmas::wall))]
pub fn wall()
    ensures { WallLaw }
{}
