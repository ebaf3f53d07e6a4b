//! The search for games in which no two players meet twice.
ghost use Rattle.std.specs.Prelude.{ℕ, ◌≡◌, ◌+◌, ◌≤◌, IfOk, OnOk};
ghost use Rattle.riichi_seats.specs.Seatings as spec;

use crate::design::player_by_rule;
use crate::draft::{Draft, Place};
use crate::rotation::balance_seats;
use crate::session::{arranged, numbers, push_tables};
use crate::table::Table;
use rand::RngExt;
use rand::seq::SliceRandom;
use rand_core::Rng;
use rand_pcg::Pcg32;
use std::alloc::{AllocError, Global};

/// How often the search goes on, if it is asked to.
const ROUNDS: u32 = 1000;

/// How many changes are tried in a round.
const TRIES: u32 = 5000;

/// The greatest chance of a change by which one pair more meets again, of so many in 2 to the 32.
const MOST_CHANCE: u32 = 1 << 27;

/// The stream of the generator.
const STREAM: u64 = 54;

/// What is to be drawn.
#[derive(Clone, Copy, Debug, PartialEq, Eq)]
pub struct Plan {
    /// The tables of a session, a fourth of the players.
    pub tables: u16,
    pub sessions: u16,
    /// The same seed draws the same games.
    pub seed: u64,
    ghost few_tables: { tables ≤ 100 },
    ghost few_sessions: { sessions ≤ 32 },
}

/// A drawing that goes on.
#[derive(Drop)]
pub struct Drawing {
    plan: Plan,
    draft: Draft,
    random: Pcg32,
    rounds: u32,
}

impl Drawing {
    /// Sessions by the rules under which nobody meets twice, and where there are no more of those, at random. It fails for want of
    /// memory.
    pub fn begin(alloc: Global, plan: Plan) -> Result<Drawing, AllocError>
        ensures { IfOk result (λ drawing. drawing.plan ≡ plan) }
    {
        let mut random = Pcg32::new(plan.seed, STREAM);
        let mut draft = Draft::new(alloc, plan.tables, plan.sessions)?;
        let mut order = numbers(alloc, draft.players())?;
        order.as_mut_slice().shuffle(&mut random);
        let by_rule = seat_by_rule(&mut draft, order.as_slice());
        for session in by_rule..plan.sessions {
            order.as_mut_slice().shuffle(&mut random);
            seat_all(&mut draft, session, order.as_slice());
        }
        draft.count_meetings();
        Ok(Drawing {
            plan,
            draft,
            random,
            rounds: 0,
        })
    }

    /// How far the search is, in hundredths of the longest.
    pub fn hundredths(&self) -> u32
        ensures { result ≤ 100 }
    {
        (self.rounds / 10).min(100)
    }

    /// Goes on for a while, some thousandths of a second; whether there is more to try.
    pub fn improve(&mut self) -> bool
        ensures { self.new.plan ≡ self.old.plan }
    {
        if self.rounds >= ROUNDS || !self.draft.has_repeated() {
            return false;
        }
        self.rounds += 1;
        let chance = MOST_CHANCE / ROUNDS * (ROUNDS - self.rounds);
        improve_draft(&mut self.draft, &mut self.random, chance);
        true
    }

    /// The games of all sessions, in turn. Each player sits once in each session. It fails for want of memory.
    pub fn finish(mut self, alloc: Global) -> Result<Vec<Table>, AllocError>
        ensures { let plan = self.plan in
            IfOk result (λ games. spec.IsSeating plan.tables plan.sessions games.items) }
    {
        balance_seats(&mut self.draft);
        games_of(alloc, self.plan, &self.draft)
    }
}

/// Tries changes of a draft, each of which is borne with a chance where more meet again by it.
fn improve_draft(draft: &mut Draft, random: &mut Pcg32, chance: u32) {
    for _ in 0..TRIES {
        try_exchange(draft, random, chance);
    }
}

/// Two players of a session, of any tables, change places, unless more meet again by it. Even then they do it now and then.
fn try_exchange(draft: &mut Draft, random: &mut Pcg32, chance: u32) {
    let one = any_place(draft, random);
    let other = Place {
        session: one.session,
        number: any_place(draft, random).number,
    };
    if one.number / 4 == other.number / 4 {
        return;
    }
    let loss = draft.loss(one, other);
    if loss == 0 || is_borne(random, loss, chance) {
        draft.exchange(one, other);
    }
}

/// A place of a session, at random.
fn any_place(draft: &Draft, random: &mut Pcg32) -> Place {
    Place {
        session: random.random_range(0..draft.sessions().max(1)),
        number: random.random_range(0..draft.players().max(1)),
    }
}

/// Whether a loss is borne: with this chance of so many in 2 to the 32 where it is 1, and a sixteenth of it for each 1 more.
fn is_borne(random: &mut Pcg32, loss: u32, chance: u32) -> bool {
    match loss {
        1 => random.next_u32() < chance,
        2 => random.next_u32() < chance >> 4,
        3 => random.next_u32() < chance >> 8,
        _ => false,
    }
}

/// The games of a draft.
fn games_of(alloc: Global, plan: Plan, draft: &Draft) -> Result<Vec<Table>, AllocError>
    ensures { IfOk result (λ games. spec.IsSeating plan.tables plan.sessions games.items) }
{
    let mut games = Vec::new(alloc);
    for session in 0..plan.sessions {
        push_session(alloc, &mut games, plan.tables, draft.session(session))?;
    }
    Ok(games)
}

/// With the games of one session more.
fn push_session(
    alloc: Global,
    games: &mut Vec<Table>,
    tables: u16,
    players: &[u16],
) -> Result<(), AllocError>
    requires { tables ≤ 100 }
    ensures { (sessions : ℕ) → spec.IsSeating tables sessions games.old.items
        → OnOk result (spec.IsSeating tables (sessions + 1) games.new.items) }
{
    let order = arranged(alloc, tables, players)?;
    push_tables(games, order.as_slice())?;
    Ok(())
}

/// Seats the players of an order in the sessions for which there is a rule, and says how many these are.
fn seat_by_rule(draft: &mut Draft, order: &[u16]) -> u16 {
    let sessions = draft.sessions();
    for session in 0..sessions {
        if !seat_session(draft, session, order) {
            return session;
        }
    }
    sessions
}

/// Whether there is a rule for a session, by which the players sit then.
fn seat_session(draft: &mut Draft, session: u16, order: &[u16]) -> bool {
    let mut is_seated = true;
    for table in 0..draft.tables() {
        is_seated &= seat_table(draft, session, table, order);
    }
    is_seated
}

fn seat_table(draft: &mut Draft, session: u16, table: u16, order: &[u16]) -> bool {
    for seat in 0..4 {
        let Some(number) = player_by_rule(draft.tables(), session, table, seat) else {
            return false;
        };
        let place = Place {
            session,
            number: table.saturating_mul(4),
        };
        let player = order.get(usize::from(number)).copied().unwrap_or(0);
        draft.put(place.at_seat((seat + session % 4) % 4), player);
    }
    true
}

/// Seats the players in their order at the tables of a session.
fn seat_all(draft: &mut Draft, session: u16, order: &[u16]) {
    for number in 0..draft.players() {
        let player = order.get(usize::from(number)).copied().unwrap_or(0);
        draft.put(Place { session, number }, player);
    }
}
