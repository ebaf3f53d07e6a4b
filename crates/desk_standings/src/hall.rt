//! The games of a tournament.
ghost use Rattle.std.specs.Prelude.{◌≡◌, IfErr, IfOk, IsPermutation, MatchOption, MatchResult, OnOk, None};
ghost use Rattle.std.specs.List.Sorted.{IsSorted};
ghost use Rattle.riichi_game_text.specs.Names.{names_in};
ghost use Rattle.riichi_standings.specs.Sessions.{IsThin, NoneIsThin};
ghost use Rattle.riichi_standings.specs.Standings.{standings_of};
ghost use Rattle.riichi_standings.specs.declared.fault.StandingsFault.TheVariants.{FewerTables};
ghost use Rattle.desk_standings.specs.Halls as spec;

use crate::differing::{TableRule, differing};
use crate::ended::EndedGame;
use crate::trouble::{Trouble, Why};
use riichi_standings::{Standing, StandingsFault, TieBreak, Tournament, thin_session};
use riichi_table::{Player, TableRules};
use std::alloc::Global;
use std::marker::Model;

/// The games of a tournament, under the rules of the first.
#[derive(Drop)]
pub struct Hall {
    rules: Option<TableRules>,
    tournament: Tournament,
}

impl Model for Hall {
    ghost use Rattle.desk_standings.specs.Halls.{Held};

    ghost Value = { Held };

    ghost view = { λ hall. record { rules = hall.rules; games = hall.tournament } };
}

impl Hall {
    /// Without games.
    pub fn new(alloc: Global) -> Hall
        ensures { result ≡ spec.nothing_held }
    {
        Hall {
            rules: None,
            tournament: Tournament::new(alloc),
        }
    }

    /// The games so far.
    pub fn tournament(&self) -> &Tournament
        ensures { result.now ≡ self.now.games }
    {
        &self.tournament
    }

    /// The players by their places, where no session has fewer games than the one before it.
    pub fn standings(&self, ties: TieBreak) -> Result<Vec<Standing>, StandingsFault>
        ensures each_once { IfOk result (λ list. IsPermutation
            (standings_of ties self.now.games.names self.now.games.results) list.items) }
        ensures in_order { IfOk result (λ list. IsSorted ⟦<Standing as Ord>⟧.cmp list.items) }
        ensures full { IfOk result (λ list. NoneIsThin self.now.games.results) }
    {
        match thin_session(self.tournament.results()) {
            Some(session) => Err(StandingsFault::FewerTables(session)),
            None => self.tournament.standings(ties),
        }
    }

    /// Takes games one after another, up to the first that can't be taken.
    #[tactic(auto, using(crate::proofs::HallLemmas::takes_next, crate::proofs::HallLemmas::stops_there))]
    pub fn take_games(&mut self, games: &[EndedGame]) -> Result<(), Trouble>
        ensures ok { OnOk result (spec.TakesInTurn self.old games.now self.new) }
        ensures err { IfErr result (λ trouble.
            spec.StopsAt self.old games.now trouble.why self.new) }
    {
        for game in games {
            if let Err(why) = self.take_game(game) {
                return Err(Trouble {
                    game: game.number,
                    line: game.line,
                    why,
                });
            }
        }
        Ok(())
    }

    /// Takes a game, where it can be one of the tournament; else nothing is changed.
    pub fn take_game(&mut self, game: &EndedGame) -> Result<(), Why>
        ensures ok { OnOk result (spec.CanTake self.old game.now
            × (self.new ≡ spec.with_ended self.old game.now)) }
        ensures err { IfErr result (λ why. spec.IsLeftAlone self.old game.now why self.new) }
    {
        if let Some(why) = self.refusal(game) {
            return Err(why);
        }
        self.rules = Some(game.rules);
        if let Err(fault) = self.tournament.take_table(game.session, game.table) {
            return Err(want_of(fault));
        }
        self.take_players(game)
    }

    /// Why a game can't be taken.
    fn refusal(&self, game: &EndedGame) -> Option<Why>
        ensures { MatchOption result (spec.CanTake self.now game.now)
            (λ why. spec.IsRefusal self.now game.now why) }
    {
        if let Some(rule) = self.other_rule(&game.rules) {
            return Some(Why::OtherRules(rule));
        }
        if !self.tournament.says_alike(game.session) {
            return Some(Why::SessionUnsaid);
        }
        if self.tournament.has_table(game.session, game.table) {
            return Some(Why::TableTwice);
        }
        self.player_twice(game)
    }

    /// A rule that isn't as in the first game.
    fn other_rule(&self, rules: &TableRules) -> Option<TableRule>
        ensures { MatchOption result (spec.AreTheFirst self.now.rules rules.now)
            (λ rule. spec.AreTheFirst self.now.rules rules.now → ⊥) }
    {
        match &self.rules {
            None => None,
            Some(first) => differing(first, rules),
        }
    }

    /// A player who has had a game of the session.
    fn player_twice(&self, game: &EndedGame) -> Option<Why>
        ensures { MatchOption result (spec.AreFree self.now game.now)
            (λ why. spec.IsTwice self.now game.now why) }
    {
        if self.has_played(game, Player::First) {
            Some(Why::PlayerTwice(game.names.get(Player::First)))
        } else if self.has_played(game, Player::Second) {
            Some(Why::PlayerTwice(game.names.get(Player::Second)))
        } else if self.has_played(game, Player::Third) {
            Some(Why::PlayerTwice(game.names.get(Player::Third)))
        } else if self.has_played(game, Player::Fourth) {
            Some(Why::PlayerTwice(game.names.get(Player::Fourth)))
        } else {
            None
        }
    }

    fn has_played(&self, game: &EndedGame, player: Player) -> bool
        ensures { result ≡ spec.has_had self.now game.now player }
    {
        let name = game.names.get(player);
        self.tournament.has_played(name.as_str(), game.session)
    }

    /// Takes what the players have of a game.
    fn take_players(&mut self, game: &EndedGame) -> Result<(), Why>
        ensures ok { OnOk result (self.new
            ≡ record self.old { games = spec.with_players game.now self.old.games }) }
        ensures err { IfErr result (λ why. spec.IsWant why) }
    {
        self.take_player(game, Player::First)?;
        self.take_player(game, Player::Second)?;
        self.take_player(game, Player::Third)?;
        self.take_player(game, Player::Fourth)
    }

    /// Takes what a player has of a game.
    fn take_player(&mut self, game: &EndedGame, player: Player) -> Result<(), Why>
        ensures ok { OnOk result (self.new
            ≡ record self.old { games = spec.with_game_of game.now self.old.games player }) }
        ensures err { IfErr result (λ why. spec.IsWant why) }
    {
        let name = game.names.get(player);
        let own = game.finals.get(player);
        let Ok(points) = i32::try_from(own.total) else {
            return Err(Why::TooMany);
        };
        match self
            .tournament
            .take_seat(name.as_str(), game.session, own.place, points)
        {
            Ok(()) => Ok(()),
            Err(fault) => Err(want_of(fault)),
        }
    }
}

/// That memory isn't there, or that there is more than can be counted.
fn want_of(fault: StandingsFault) -> Why
    ensures { spec.IsWant result }
{
    match fault {
        StandingsFault::Memory => Why::Memory,
        _ => Why::TooMany,
    }
}
