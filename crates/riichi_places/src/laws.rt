//! Laws of the definitions that the contracts cite, each as the contract of a function.
ghost use Rattle.riichi_places.specs.Laws.{AcceptedBonusesFall, AllBonusesAreGiven, EqualPointsShare, FinalsAddUpToNothing, MorePointsAreAhead, MorePointsAreNoLess, SticksGoOnce};

/// The bonuses of the four are together the bonuses of the four places, under both kinds of ties and for all points.
#[tactic(auto, using(crate::proofs::Given::all_bonuses_are_given))]
pub fn all_bonuses_are_given()
    ensures { AllBonusesAreGiven }
{}

/// The sticks that lie at the end go to one player, or to nobody where the rules say so.
#[tactic(auto, using(crate::proofs::Ended::sticks_go_once))]
pub fn sticks_go_once()
    ensures { SticksGoOnce }
{}

/// The final points, with the penalties that were taken off, add up to 0 where the uma does and the points, with the sticks that
/// are given, add up to four times the start.
#[tactic(auto, using(crate::proofs::Ended::finals_add_up_to_nothing))]
pub fn final_points_add_up_to_nothing()
    ensures { FinalsAddUpToNothing }
{}

/// Where ties are shared, equal points have equal places, and bonuses that differ by a hundred at most.
pub fn equal_points_share()
    ensures { EqualPointsShare }
{}

/// More points have an earlier place.
#[tactic(auto, using(crate::proofs::Level::more_points_are_ahead))]
pub fn more_points_are_ahead()
    ensures { MorePointsAreAhead }
{}

/// More points have more final points, before penalties, where no place has a greater bonus than the one before it and each bonus is
/// whole hundreds; and rules that are not refused are so.
#[tactic(auto, using(crate::proofs::Falling::more_points_are_no_less))]
pub fn more_points_have_more_final_points()
    ensures more { MorePointsAreNoLess }
    ensures rules { AcceptedBonusesFall }
{}
