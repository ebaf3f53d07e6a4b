//! The rows of outcomes, and of the states between them.
ghost use Rattle.std.specs.Prelude.{◌≡◌, ◌+◌, ◌≤◌, ◌++◌, length};
ghost use Rattle.arrayvec.specs.ArrayString.{array_string_len};
ghost use Rattle.riichi_table.specs.Players.{of_player};
ghost use Rattle.riichi_game_text.specs.Answers as answers;
ghost use Rattle.riichi_game_text.specs.Names.{names_in};
ghost use Rattle.riichi_game_sheet.specs.Deals as spec;

use crate::cells::MOST_TOLD;
use crate::rows::{MOST_LABEL, MOST_ROW, Written, push_row};
use arrayvec::ArrayString;
use riichi_game_text::{MOST_NAME, Name, Names, point_changes};
use riichi_hand::Wind;
use riichi_settle::{as_played, winners};
use riichi_table::{ByPlayer, GameState, Outcome, Player, TableRules};
use riichi_text::{ANSWER_ROOM, AnswerText, push_number};

/// The bytes of the longest rows of an outcome.
pub const MOST_OUTCOME: usize = MOST_ROW + "\n".len() + MOST_ROW;

/// The bytes of the longest state.
pub const MOST_STANDS: usize = MOST_ROW;

/// The bytes of the names of the four, each behind a space.
const MOST_NAMED: usize = 4 * (" ".len() + MOST_NAME);

/// The label of a row.
type Label = ArrayString<MOST_LABEL>;

/// What is told in a row.
type Told = ArrayString<MOST_TOLD>;

/// Writes the rows of an outcome by the state before it and the points after it: what it changes, and below that the points; of a
/// penalty a single row. An `end` is told by what follows, and has none of its own.
pub fn push_outcome(
    text: &mut AnswerText,
    names: &Names,
    rules: &TableRules,
    before: &GameState,
    after: &ByPlayer<i32>,
    outcome: &Outcome,
)
    requires { array_string_len text.old + MOST_OUTCOME ≤ ANSWER_ROOM }
    ensures bytes { text.new.bytes ≡ text.old.bytes ++ spec.outcome_rows
        (names_in names.now) rules.now before.now after.now outcome.now }
    ensures len { array_string_len text.new ≤ array_string_len text.old + MOST_OUTCOME }
{
    match outcome {
        Outcome::Penalty { player, points } => push_penalty(text, *player, *points),
        Outcome::End => {}
        _ => push_deal(text, names, before, after, &as_played(rules, outcome)),
    }
}

/// Writes the row of a penalty, with its points in the column of the player.
fn push_penalty(text: &mut AnswerText, player: Player, points: u32)
    requires { array_string_len text.old + MOST_ROW ≤ ANSWER_ROOM }
    ensures bytes { text.new.bytes ≡ text.old.bytes ++ spec.penalty_row player points }
    ensures len { array_string_len text.new ≤ array_string_len text.old + MOST_ROW }
{
    let numbers = ByPlayer::all(0).with(player, i64::from(points));
    push_row(text, "", "penalty", Written::Points, &numbers);
}

/// Writes what a deal changes, and below that the points.
fn push_deal(
    text: &mut AnswerText,
    names: &Names,
    before: &GameState,
    after: &ByPlayer<i32>,
    played: &Outcome,
)
    requires { array_string_len text.old + MOST_OUTCOME ≤ ANSWER_ROOM }
    ensures bytes { text.new.bytes ≡ text.old.bytes
        ++ spec.deal_rows (names_in names.now) before.now after.now played.now }
    ensures len { array_string_len text.new ≤ array_string_len text.old + MOST_OUTCOME }
{
    let label = deal_label(before);
    let told = outcome_told(names, played);
    let beside = beside_told(names, played);
    let changes = point_changes(&before.points, after);
    push_row(
        text,
        label.as_str(),
        told.as_str(),
        Written::Changes,
        &changes,
    );
    text.push_str("\n");
    push_row(text, "", beside.as_str(), Written::Points, &after.widened());
}

/// Writes the state of a game that isn't over, or that a line took it back to.
#[tactic(auto, unfolding(crate::specs::Deals::stands_row))]
pub fn push_stands(text: &mut AnswerText, state: &GameState)
    requires { array_string_len text.old + MOST_STANDS ≤ ANSWER_ROOM }
    ensures bytes { text.new.bytes ≡ text.old.bytes ++ spec.stands_row state.now }
    ensures len { array_string_len text.new ≤ array_string_len text.old + MOST_STANDS }
{
    let label = deal_label(state);
    let points = state.points.widened();
    push_row(text, label.as_str(), "stands", Written::Points, &points);
}

/// The deal of a state: `E2`, with one counter `E2-1`, and with a stick too `E2-1+1`.
#[tactic(auto, unfolding(crate::specs::Deals::deal_label))]
fn deal_label(state: &GameState) -> Label
    ensures { result.bytes ≡ spec.deal_label state.now }
{
    let mut label = Label::new();
    label.push_str(round_letter(state.round));
    label.push_str(player_digit(state.dealer));
    push_if_any(&mut label, "-", state.counters);
    push_if_any(&mut label, "+", state.sticks);
    label
}

fn round_letter(round: Wind) -> &'static str
    ensures value { result.now ≡ spec.round_letter round }
    ensures short { length result.now ≤ 1 }
{
    match round {
        Wind::East => "E",
        Wind::South => "S",
        Wind::West => "W",
        Wind::North => "N",
    }
}

fn player_digit(player: Player) -> &'static str
    ensures value { result.now ≡ spec.player_digit player }
    ensures short { length result.now ≤ 1 }
{
    match player {
        Player::First => "1",
        Player::Second => "2",
        Player::Third => "3",
        Player::Fourth => "4",
    }
}

/// Writes how many there are behind a mark, where there are any.
fn push_if_any(label: &mut Label, mark: &str, count: u8)
    requires room { array_string_len label.old + 4 ≤ MOST_LABEL }
    requires short { length mark.now ≤ 1 }
    ensures bytes { label.new.bytes ≡ label.old.bytes ++ spec.count_if_any mark.now count }
    ensures len { array_string_len label.new ≤ array_string_len label.old + 4 }
{
    if count > 0 {
        label.push_str(mark);
        push_number(label, count);
    }
}

/// How a deal ended, and who did it.
#[tactic(auto, unfolding(crate::specs::Deals::outcome_shown))]
fn outcome_told(names: &Names, played: &Outcome) -> Told
    ensures { result.bytes ≡ spec.outcome_shown (names_in names.now) played.now }
{
    let mut told = Told::new();
    match played {
        Outcome::Ron { wins, .. } => push_listed(&mut told, "ron", names, &winners(wins)),
        Outcome::Tsumo { winner, .. } => push_with_name(&mut told, "tsumo ", names, *winner),
        Outcome::Draw { nagashi, .. } => {
            told.push_str("draw");
            push_listed(&mut told, " nagashi", names, nagashi);
        }
        Outcome::Abort { .. } => told.push_str("abort"),
        Outcome::Chombo { player } => push_with_name(&mut told, "chombo ", names, *player),
        Outcome::Stands { .. } => told.push_str("stands"),
        _ => {}
    }
    told
}

/// What else is told of a deal: whose discard was won on, or who was ready.
#[tactic(auto, unfolding(crate::specs::Deals::beside_told))]
fn beside_told(names: &Names, played: &Outcome) -> Told
    ensures { result.bytes ≡ spec.beside_told (names_in names.now) played.now }
{
    let mut told = Told::new();
    match played {
        Outcome::Ron { from, .. } => push_with_name(&mut told, "from ", names, *from),
        Outcome::Draw { ready, .. } => push_listed(&mut told, "ready", names, ready),
        _ => {}
    }
    told
}

/// Writes a word, and the name of a player.
fn push_with_name(told: &mut Told, word: &str, names: &Names, player: Player)
    requires { array_string_len told.old + length word.now + MOST_NAME ≤ MOST_TOLD }
    ensures { told.new.bytes
        ≡ told.old.bytes ++ (word.now ++ of_player (names_in names.now) player) }
{
    told.push_str(word);
    told.push_str(names.get(player).as_str());
}

/// Writes a word, and behind it the names of some players, where there are any.
fn push_listed(told: &mut Told, word: &str, names: &Names, players: &ByPlayer<bool>)
    requires { array_string_len told.old + length word.now + MOST_NAMED ≤ MOST_TOLD }
    ensures { told.new.bytes ≡ told.old.bytes
        ++ spec.names_listed word.now (names_in names.now) (of_player players.now) }
{
    if players.any() {
        told.push_str(word);
        push_name_if(told, players.first, &names.get(Player::First));
        push_name_if(told, players.second, &names.get(Player::Second));
        push_name_if(told, players.third, &names.get(Player::Third));
        push_name_if(told, players.fourth, &names.get(Player::Fourth));
    }
}

fn push_name_if(told: &mut Told, holds: bool, name: &Name)
    requires { array_string_len told.old + 1 + MOST_NAME ≤ MOST_TOLD }
    ensures bytes { told.new.bytes ≡ told.old.bytes ++ spec.name_where holds name.now.bytes }
    ensures len { array_string_len told.new ≤ array_string_len told.old + 1 + MOST_NAME }
{
    if holds {
        told.push_str(" ");
        told.push_str(name.as_str());
    }
}
