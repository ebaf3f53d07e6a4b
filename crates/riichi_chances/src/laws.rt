//! Laws over the definitions alone.
ghost use Rattle.riichi_chances.specs.Laws.{ChanceLaw, CountedLaw, MostLaw, PlayLaw};

/// What was thrown on the way can be forgotten: the hand, the turns that are left and the number of unseen tiles tell how many
/// draws lead there.
#[tactic(auto, using(crate::proofs::CountedLemmas::counted_law))]
pub fn hand_and_turns()
    ensures { CountedLaw }
{}

/// The draws that lead there are no more than all draws.
#[tactic(auto, using(crate::proofs::ChanceLemmas::chance_law))]
pub fn no_more_than_all()
    ensures { ChanceLaw }
{}

/// Whatever of the tiles that bring it nearer a play throws at once, and whichever best discards it makes: it brings the hand
/// there in no more draws than the upper end.
#[tactic(auto, using(crate::proofs::PlayLemmas::play_law))]
pub fn no_play_has_more()
    ensures { PlayLaw }
{}

/// The upper end is no lower than the draws that are reached.
#[tactic(auto, using(crate::proofs::PlayLemmas::most_law))]
pub fn no_more_than_at_most()
    ensures { MostLaw }
{}
