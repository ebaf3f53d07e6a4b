//! A line that is a question.
ghost use Rattle.std.specs.Prelude.{◌≡◌, ◌≤◌, Ok, Some, length};
ghost use Rattle.riichi_hand.specs.Lines.{outcome_of};
ghost use Rattle.riichi_hand.specs.Rules.{first_profile};
ghost use Rattle.riichi_hand.specs.Words.{words_of};
ghost use Rattle.riichi_study.specs.Lines as spec;
ghost use Rattle.riichi_study.specs.Words.{shape_words};

use crate::call_record::CallRecord;
use crate::key::StudyKey;
use crate::name::StudyName;
use crate::order::Order;
use crate::study::Study;
use crate::turns::Turns;
use crate::values::{read_named_rules, read_thrower, read_tile, read_tiles, read_wind};
use crate::words::{LineRoom, only_value, push_others};
use crate::worth_record::WorthRecord;
use riichi_deeper::{Thrower, Thrown};
use riichi_hand::{
    Job, LineCode, LineFault, MOST_LINE, Rules, ShapeRecord, Wind, has_other_byte, next_word,
    read_line,
};
use riichi_safe::SafeRecord;
use riichi_tiles::{Counts, Kind};
use riichi_worth::Stakes;

/// The question of a line, `None` for a comment or a line of spaces alone or nothing, or the line's first fault. The line comes
/// without the line feed and the carriage return that ended it.
#[tactic(auto, unfolding(crate::specs::Lines::study_of))]
pub fn read_study(line: &[u8]) -> Result<Option<Study>, LineFault>
    ensures { result ≡ spec.study_of line.now }
{
    if line.len() > MOST_LINE {
        return Err(LineFault::Line(LineCode::H1));
    }
    if line.first() == Some(&b'#') {
        return Ok(None);
    }
    let Some((word, words)) = next_word(line) else {
        return Ok(None);
    };
    if has_other_byte(line) {
        return Err(LineFault::Line(LineCode::H1));
    }
    match StudyName::read(word) {
        Some(StudyName::Shape) => read_shape(words),
        Some(StudyName::Calls) => read_calls(words),
        Some(StudyName::Safe) => read_safe(words),
        Some(StudyName::Chances) => read_chances(words),
        Some(StudyName::Worth) => read_worth(words),
        None => Err(LineFault::Line(LineCode::H2)),
    }
}

/// The question of the words of a line behind `shape`.
#[tactic(auto, unfolding(crate::specs::Lines::shape_asked))]
fn read_shape(words: &[u8]) -> Result<Option<Study>, LineFault>
    requires { length words.now ≤ MOST_LINE }
    ensures { result ≡ spec.shape_asked (words_of words.now) }
{
    let hand = read_hand(StudyName::Shape, words)?;
    let order = read_order(words)?;
    Ok(Some(Study::Shape(hand, order)))
}

/// The question of the words of a line behind `calls`.
#[tactic(auto, unfolding(crate::specs::Lines::calls_asked))]
fn read_calls(words: &[u8]) -> Result<Option<Study>, LineFault>
    requires { length words.now ≤ MOST_LINE }
    ensures { result ≡ spec.calls_asked (words_of words.now) }
{
    let hand = read_hand(StudyName::Calls, words)?;
    let tile = read_thrown(words)?;
    let by = read_from(words)?;
    let asked = CallRecord::new(hand, Thrown { tile, by })?;
    Ok(Some(Study::Calls(asked)))
}

/// The question of the words of a line behind `safe`.
#[tactic(auto, unfolding(crate::specs::Lines::safe_asked))]
fn read_safe(words: &[u8]) -> Result<Option<Study>, LineFault>
    requires { length words.now ≤ MOST_LINE }
    ensures { result ≡ spec.safe_asked (words_of words.now) }
{
    let hand = read_hand(StudyName::Safe, words)?;
    let own = read_list(StudyKey::Own, words)?;
    let thrown = read_list(StudyKey::Thrown, words)?;
    let since = read_list(StudyKey::Since, words)?;
    let asked = SafeRecord::new(hand, own, thrown, since)?;
    Ok(Some(Study::Safe(asked)))
}

/// The question of the words of a line behind `chances`.
#[tactic(auto, unfolding(crate::specs::Lines::chances_asked))]
fn read_chances(words: &[u8]) -> Result<Option<Study>, LineFault>
    requires { length words.now ≤ MOST_LINE }
    ensures { result ≡ spec.chances_asked (words_of words.now) }
{
    let hand = read_hand(StudyName::Chances, words)?;
    let turns = read_turns(words)?;
    Ok(Some(Study::Chances(hand, turns)))
}

/// The question of the words of a line behind `worth`.
#[tactic(auto, unfolding(crate::specs::Lines::worth_asked))]
fn read_worth(words: &[u8]) -> Result<Option<Study>, LineFault>
    requires { length words.now ≤ MOST_LINE }
    ensures { result ≡ spec.worth_asked (words_of words.now) }
{
    let hand = read_hand(StudyName::Worth, words)?;
    let turns = read_turns(words)?;
    let stakes = read_stakes(words)?;
    let asked = WorthRecord::new(hand, stakes)?;
    Ok(Some(Study::Worth(asked, turns)))
}

/// What the points of a win hang on beside the hand.
#[tactic(auto, unfolding(crate::specs::Lines::stakes_asked))]
fn read_stakes(words: &[u8]) -> Result<Stakes, LineFault>
    ensures { result ≡ spec.stakes_asked (words_of words.now) }
{
    let seat = read_wind_of(StudyKey::Seat, words)?;
    let round = read_wind_of(StudyKey::Round, words)?;
    let dora = read_list(StudyKey::Dora, words)?;
    let rules = read_rules_of(words)?;
    Ok(Stakes {
        rules,
        seat,
        round,
        dora,
    })
}

/// The shape that the words spell which are not of the study line's own.
#[tactic(auto, unfolding(crate::specs::Lines::hand_asked))]
fn read_hand(job: StudyName, words: &[u8]) -> Result<ShapeRecord, LineFault>
    requires { length words.now ≤ MOST_LINE }
    ensures { result ≡ spec.hand_asked job (words_of words.now) }
{
    let line = shape_line(job, words);
    read_shape_line(line.as_slice())
}

/// The shape line of the words that are not of the study line's own.
fn shape_line(job: StudyName, words: &[u8]) -> LineRoom
    requires { length words.now ≤ MOST_LINE }
    ensures { result.items ≡ spec.shape_line (shape_words job (words_of words.now)) }
{
    let mut line = LineRoom::new();
    line.try_extend_from_slice(b"shape").unwrap();
    push_others(job, words, &mut line);
    line
}

/// The shape of a shape line, or its first fault.
fn read_shape_line(line: &[u8]) -> Result<ShapeRecord, LineFault>
    ensures { result ≡ spec.outcome_shape (outcome_of first_profile line.now) }
{
    match read_line(Rules::One, line)? {
        Some(job) => shape_of(&job),
        None => Err(LineFault::Line(LineCode::H2)),
    }
}

/// The hand of a job that is a shape.
fn shape_of(job: &Job) -> Result<ShapeRecord, LineFault>
    ensures { result ≡ spec.outcome_shape (Ok (Some job.now)) }
{
    match job {
        Job::Shape(hand) => Ok(*hand),
        _ => Err(LineFault::Line(LineCode::H2)),
    }
}

/// The order of the discards: by live copies, where none is said.
#[tactic(auto, unfolding(crate::specs::Lines::order_asked))]
fn read_order(words: &[u8]) -> Result<Order, LineFault>
    ensures { result ≡ spec.order_asked (words_of words.now) }
{
    match only_value(StudyKey::Order, words)? {
        None => Ok(Order::Live),
        Some(value) => Order::read(value).ok_or(LineFault::Line(LineCode::H4)),
    }
}

/// The thrown tile.
#[tactic(auto, unfolding(crate::specs::Lines::tile_asked))]
fn read_thrown(words: &[u8]) -> Result<Kind, LineFault>
    ensures { result ≡ spec.tile_asked (words_of words.now) }
{
    match only_value(StudyKey::Tile, words)? {
        None => Err(LineFault::Line(LineCode::H6)),
        Some(value) => read_tile(value).ok_or(LineFault::Line(LineCode::H4)),
    }
}

/// The tiles of a key: none, where none are said.
#[tactic(auto, unfolding(crate::specs::Lines::tiles_asked))]
fn read_list(key: StudyKey, words: &[u8]) -> Result<Counts, LineFault>
    ensures { result ≡ spec.tiles_asked key (words_of words.now) }
{
    match only_value(key, words)? {
        None => Ok(Counts::new()),
        Some(value) => read_tiles(value).ok_or(LineFault::Line(LineCode::H4)),
    }
}

/// Who has thrown it.
#[tactic(auto, unfolding(crate::specs::Lines::from_asked))]
fn read_from(words: &[u8]) -> Result<Thrower, LineFault>
    ensures { result ≡ spec.from_asked (words_of words.now) }
{
    match only_value(StudyKey::From, words)? {
        None => Err(LineFault::Line(LineCode::H6)),
        Some(value) => read_thrower(value).ok_or(LineFault::Line(LineCode::H4)),
    }
}

/// How many turns are to come.
#[tactic(auto, unfolding(crate::specs::Lines::turns_asked))]
fn read_turns(words: &[u8]) -> Result<Turns, LineFault>
    ensures { result ≡ spec.turns_asked (words_of words.now) }
{
    match only_value(StudyKey::Turns, words)? {
        None => Err(LineFault::Line(LineCode::H6)),
        Some(value) => Turns::read(value).ok_or(LineFault::Line(LineCode::H4)),
    }
}

/// The wind of a key.
#[tactic(auto, unfolding(crate::specs::Lines::wind_asked))]
fn read_wind_of(key: StudyKey, words: &[u8]) -> Result<Wind, LineFault>
    ensures { result ≡ spec.wind_asked key (words_of words.now) }
{
    match only_value(key, words)? {
        None => Err(LineFault::Line(LineCode::H6)),
        Some(value) => read_wind(value).ok_or(LineFault::Line(LineCode::H4)),
    }
}

/// The rules by which a win is valued: the first profile, where none are said.
#[tactic(auto, unfolding(crate::specs::Lines::rules_asked))]
fn read_rules_of(words: &[u8]) -> Result<Rules, LineFault>
    ensures { result ≡ spec.rules_asked (words_of words.now) }
{
    match only_value(StudyKey::Rules, words)? {
        None => Ok(Rules::One),
        Some(value) => read_named_rules(value).ok_or(LineFault::Line(LineCode::H4)),
    }
}
