//! What a player needs, as text.
use crate::facts::same;
use riichi_game_text::Names;
use riichi_hand::Wind;
use riichi_need::{Question, needs_of};
use riichi_need_text::needs_text;
use riichi_table::{ByPlayer, GameState, Player, TableRules};

/// The third player asks for the first place, the first deals, and a counter and a stick lie. Off the second 3200 ties and 3600
/// wins, off another 6400 is not enough and 7100 wins; by self-draw 1300/2600 is 100 short and 1500/2900 wins.
#[test]
fn for_the_first_place(rt: HostRuntime) {
    let state = GameState {
        points: ByPlayer {
            first: 28000,
            second: 38000,
            third: 30000,
            fourth: 23000,
        },
        round: Wind::South,
        dealer: Player::First,
        counters: 1,
        sticks: 1,
    };
    let question = Question {
        rules: TableRules::club(),
        state,
        bets: ByPlayer::all(false),
        player: Player::Third,
        place: 1,
    };
    let text = needs_text(&Names::numbered(), &question, &needs_of(&question));
    same(
        &rt,
        text.as_str(),
        "need 3 place 1
from 1 strictly 7100 2.110 tie 7100 2.110
from 2 strictly 3600 1.110 tie 3200 1.100 2.50 3.25
from 4 strictly 7100 2.110 tie 7100 2.110
tsumo strictly 1500/2900 2.90 tie 1500/2900 2.90
",
    );
}
