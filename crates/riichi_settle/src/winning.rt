//! Who wins on a discard.
ghost use Rattle.std.specs.Prelude.{◌≡◌};
ghost use Rattle.riichi_settle.specs.Winners as spec;

use riichi_table::{ByPlayer, Outcome, Player, SeveralWinners, TableRules, Win};

/// Of those who win, the first in turn behind the discarder; where nobody does, the discarder.
#[tactic(auto, unfolding(crate::specs::Winners::nearest))]
pub fn nearest(from: Player, wins: &ByPlayer<Option<Win>>) -> Player
    ensures { result ≡ spec.nearest from wins.now }
{
    let right = from.next();
    let across = right.next();
    let left = across.next();
    if wins.get(right).is_some() {
        right
    } else if wins.get(across).is_some() {
        across
    } else if wins.get(left).is_some() {
        left
    } else {
        from
    }
}

/// How an outcome is played under the rules of the table: of several who win on a discard the nearest alone, or an abortive draw
/// in place of three, where the rules say so. Any other outcome is played as it is.
pub fn as_played(rules: &TableRules, outcome: &Outcome) -> Outcome
    ensures { result ≡ spec.as_played rules.now outcome.now }
{
    match outcome {
        Outcome::Ron { from, wins, riichi } => ron_as_played(rules.ron, *from, wins, riichi),
        _ => *outcome,
    }
}

#[tactic(auto, unfolding(crate::specs::Winners::ron_as_played))]
fn ron_as_played(
    ron: SeveralWinners,
    from: Player,
    wins: &ByPlayer<Option<Win>>,
    riichi: &ByPlayer<bool>,
) -> Outcome
    ensures { result ≡ spec.ron_as_played ron from wins.now riichi.now }
{
    match ron {
        SeveralWinners::All => Outcome::Ron {
            from,
            wins: *wins,
            riichi: *riichi,
        },
        SeveralWinners::Nearest => Outcome::Ron {
            from,
            wins: nearest_alone(from, wins),
            riichi: *riichi,
        },
        SeveralWinners::Two => two_at_most(from, wins, riichi),
    }
}

fn two_at_most(from: Player, wins: &ByPlayer<Option<Win>>, riichi: &ByPlayer<bool>) -> Outcome
    ensures { result ≡ spec.two_at_most from wins.now riichi.now }
{
    if winners(wins).count() > 2 {
        Outcome::Abort { riichi: *riichi }
    } else {
        Outcome::Ron {
            from,
            wins: *wins,
            riichi: *riichi,
        }
    }
}

/// Who wins.
pub fn winners(wins: &ByPlayer<Option<Win>>) -> ByPlayer<bool>
    ensures { result ≡ spec.winners wins.now }
{
    ByPlayer {
        first: wins.first.is_some(),
        second: wins.second.is_some(),
        third: wins.third.is_some(),
        fourth: wins.fourth.is_some(),
    }
}

#[tactic(auto, unfolding(crate::specs::Winners::nearest_alone))]
fn nearest_alone(from: Player, wins: &ByPlayer<Option<Win>>) -> ByPlayer<Option<Win>>
    ensures { result ≡ spec.nearest_alone from wins.now }
{
    let winner = nearest(from, wins);
    ByPlayer::all(None).with(winner, wins.get(winner))
}
