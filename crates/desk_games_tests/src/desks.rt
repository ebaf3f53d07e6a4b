//! The text of games behind its last line.
use crate::facts::{holds, holds_in, same};
use desk_games::{DeskFault, GameDesk, games_played};
use desk_io::BytesIn;
use riichi_hand::{Rules, Wind};
use riichi_table::{Player, TableRules};
use std::process::Abort;

/// The text of games behind the last line of a text.
fn desk_behind(rt: &impl Abort, text: &[u8]) -> GameDesk {
    let mut reader = BytesIn::new(text, 1000, None);
    let desk = games_played(Rules::One, &mut reader).ok();
    desk.expect(rt, "a desk")
}

#[test]
fn the_game_at_hand(rt: HostRuntime) {
    let text = b"game\ndraw\ngame A B C D table=league\nron B from A 1.30\nchombo C\n";
    let desk = desk_behind(&rt, text);
    let game = desk.game().expect(&rt, "a game");
    same(&rt, game.names().get(Player::Second).as_str(), "B");
    same(&rt, game.rules(), TableRules::league());
    let progress = game.progress();
    same(&rt, progress.state.round, Wind::East);
    same(&rt, progress.state.dealer, Player::Second);
    same(&rt, progress.state.points.first, 24_000);
    same(&rt, progress.penalties.third, 20_000);
    holds(&rt, !progress.is_over && !game.is_held());
}

#[test]
fn no_game_to_go_on_with(rt: HostRuntime) {
    holds(&rt, desk_behind(&rt, b"draw").game().is_none());
    holds(&rt, desk_behind(&rt, b"game A").game().is_none());
    holds(&rt, desk_behind(&rt, b"game\ndraw\nwin\n").game().is_none());
    holds(&rt, desk_behind(&rt, b"game\nend\n").game().is_some());
}

#[test]
fn stops_at_each_failing_read(rt: HostRuntime) {
    for failing in 1..6u64 {
        let mut reader = BytesIn::new(b"game", 1, Some(failing));
        let desk = games_played(Rules::One, &mut reader);
        holds_in(&rt, &failing, desk.err() == Some(DeskFault::Read));
    }
}
