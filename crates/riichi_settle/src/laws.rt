//! Laws of the definitions that the contracts cite.
ghost use Rattle.riichi_settle.specs.Laws.{ChangesCancel, MovesBalance, SettlesLoneRon, SettlesLoneTsumo, TakesWhatLies};

/// Whatever is moved, nothing is lost or made: all that is given is got, and no more sticks are taken than lie. So the changes of
/// the four, with 1000 for each stick, cancel.
#[tactic(auto, using(crate::proofs::Balance::moves_balance, crate::proofs::Balance::changes_cancel, crate::proofs::Taken::takes_what_lies))]
pub fn nothing_is_lost_or_made()
    ensures balance { MovesBalance }
    ensures sticks { TakesWhatLies }
    ensures cancel { ChangesCancel }
{}

/// Where one wins alone, with no bet in the deal and nobody liable, the winner gains and the others pay what the score of the hand
/// says, whatever the rules say of several winners.
#[tactic(auto, using(crate::proofs::Gains::settles_lone_ron, crate::proofs::Gains::settles_lone_tsumo))]
pub fn a_lone_win_is_settled_as_scored()
    ensures ron { SettlesLoneRon }
    ensures tsumo { SettlesLoneTsumo }
{}
