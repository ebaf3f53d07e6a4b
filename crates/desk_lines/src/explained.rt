//! The answer to one line, and why it is so.
ghost use Rattle.std.specs.Prelude.{◌≡◌, ℕ, ◌+◌, ◌≤◌, List, ◌∷◌, ◌++◌, [], All, length};
ghost use Rattle.desk_core.specs.AnswerText.{answer_text};
ghost use Rattle.desk_core.specs.Value.{value_of};
ghost use Rattle.riichi_explain.specs.Explanation.{IsJobText, IsWinText, IsBestText, AreOthers, IsShapeText};
ghost use Rattle.riichi_explain.specs.Others.{others_text};
ghost use Rattle.riichi_explain.specs.Win.{explained_reading};
ghost use Rattle.riichi_hand.specs.Refusals.{IsRefusalOf};
ghost use Rattle.riichi_score.specs.Best.{best_of};
ghost use Rattle.riichi_score.specs.Fu.{HasFourSets};
ghost use Rattle.riichi_score.specs.Text as spec_win;
ghost use Rattle.riichi_shape.specs.Answer.{shape_answer_of};
ghost use Rattle.riichi_shape.specs.Text as spec_shape;
ghost use Rattle.riichi_split.specs.Waits.{waits_of, waits_text};
ghost use Rattle.riichi_explain.specs.Waits.{kind_waits, waits_line};
ghost use Rattle.desk_lines.specs.Explained.{IsWithWhy, IsRefusalWithWhy};
ghost use Rattle.desk_lines.specs.Outbox.{HasRoom};
ghost use Rattle.desk_lines.specs.Outcomes.{PutsLine};

use super::answering::{put_fault, put_shape, put_waits};
use super::numbered::Numbers;
use super::outbox::{MOST_OTHERS, MOST_TEXT_LINE, Outbox, ROOM};
use super::responder::Responder;
use riichi_explain::{
    REASONS_ROOM, RankedReading, Shown, explain_shape, explain_waits, explain_win,
    push_other_reading, push_shanten_line, push_waits_line, push_win_lines, ranked_readings,
};
use riichi_hand::{HandRecord, Job, Refusal, Rules, ShapeRecord, WinRecord};
use riichi_hints::push_refusal;
use riichi_score::push_win;
use riichi_shape::RowSource;
use riichi_split::Reading;

/// The explained answers: that of a line, and behind it lines that begin with two spaces and say why it is so.
pub struct Explained;

/// The same, with every reading of a hand that scores.
pub struct EveryReading;

impl Responder for Explained {
    ghost use Rattle.riichi_explain.specs.declared.explaining.Shown.TheVariants.{BestReading};
    ghost use Rattle.desk_lines.specs.Explained.{IsExplained, IsJobWithWhy, IsRefusalWithWhy, explained_by_outcome};
    ghost use Rattle.desk_lines.specs.LongLines.{explanations_alike};

    ghost may_tell = { IsExplained BestReading };

    ghost tells_job = { IsJobWithWhy BestReading };

    ghost tells_refusal = { IsRefusalWithWhy };

    ghost by_outcome = { explained_by_outcome BestReading };

    ghost alike = { explanations_alike BestReading };

    fn put_job<S: RowSource>(rules: Rules, job: &Job, outbox: &mut Outbox, source: &mut S) {
        put_explained(Shown::BestReading, job, outbox, source)
    }

    fn put_refusal(rules: Rules, line: &[u8], refusal: &Refusal<'_>, outbox: &mut Outbox) {
        put_refused(rules, line, refusal, outbox)
    }
}

impl Responder for EveryReading {
    ghost use Rattle.riichi_explain.specs.declared.explaining.Shown.TheVariants as shown;
    ghost use Rattle.desk_lines.specs.Explained.{IsExplained, IsJobWithWhy, IsRefusalWithWhy, explained_by_outcome};
    ghost use Rattle.desk_lines.specs.LongLines.{explanations_alike};

    ghost may_tell = { IsExplained shown.EveryReading };

    ghost tells_job = { IsJobWithWhy shown.EveryReading };

    ghost tells_refusal = { IsRefusalWithWhy };

    ghost by_outcome = { explained_by_outcome shown.EveryReading };

    ghost alike = { explanations_alike shown.EveryReading };

    fn put_job<S: RowSource>(rules: Rules, job: &Job, outbox: &mut Outbox, source: &mut S) {
        put_explained(Shown::EveryReading, job, outbox, source)
    }

    fn put_refusal(rules: Rules, line: &[u8], refusal: &Refusal<'_>, outbox: &mut Outbox) {
        put_refused(rules, line, refusal, outbox)
    }
}

impl Numbers for EveryReading {
    ghost use Rattle.desk_lines.specs.Numbered.{words_front};

    ghost front = { words_front };

    fn put_number(number: u64, outbox: &mut Outbox) {
        outbox.put_number("", number, ":")
    }
}

impl Numbers for Explained {
    ghost use Rattle.desk_lines.specs.Numbered.{words_front};

    ghost front = { words_front };

    fn put_number(number: u64, outbox: &mut Outbox) {
        outbox.put_number("", number, ":")
    }
}

/// Puts the answer to a job into the outbox, and why it is so.
#[tactic(auto, using(crate::proofs::JobTexts::job_texts))]
fn put_explained<S: RowSource>(shown: Shown, job: &Job, outbox: &mut Outbox, source: &mut S)
    requires { HasRoom outbox.old }
    ensures { PutsLine (IsWithWhy (IsJobText shown job.now) (answer_text (value_of job.now)))
        outbox.old.bytes.items outbox.new.bytes.items }
{
    match job {
        Job::Win(win) => put_win(shown, win, outbox, source),
        Job::Waits(hand) => put_kinds(hand, outbox),
        Job::Shape(tiles) => put_forms(tiles, outbox, source),
    }
}

fn put_win<S: RowSource>(shown: Shown, win: &WinRecord, outbox: &mut Outbox, source: &mut S)
    requires { HasRoom outbox.old }
    ensures { (why : List ℕ) × IsWinText shown win.now why
        × (outbox.new.bytes.items ≡ outbox.old.bytes.items ++ ((spec_win.win_text (best_of win.now) ++ 10 ∷ []) ++ why)) }
{
    let best = put_best(win, outbox, source);
    match shown {
        Shown::BestReading => {}
        Shown::EveryReading => put_others(&best, win, outbox),
    }
}

/// Puts the answer to a win into the outbox, and why it is so: the reading that scores.
fn put_best<S: RowSource>(win: &WinRecord, outbox: &mut Outbox, source: &mut S) -> Option<Reading>
    requires { HasRoom outbox.old }
    ensures told { (why : List ℕ) × (best : IsBestText win.now why)
        × (outbox.new.bytes.items ≡ outbox.old.bytes.items ++ ((spec_win.win_text (best_of win.now) ++ 10 ∷ []) ++ why))
        × (result ≡ explained_reading best.explanation) }
    ensures room { length outbox.new.bytes.items
        ≤ length outbox.old.bytes.items + MOST_TEXT_LINE + REASONS_ROOM }
{
    let explanation = explain_win(source, win);
    let best = explanation.reading();
    outbox.text.clear();
    push_win(&mut outbox.text, &explanation.answer());
    outbox.put_text();
    outbox.why.clear();
    push_win_lines(&mut outbox.why, explanation, win);
    outbox.put_why();
    best
}

/// Puts the lines of the readings beside the one that scores into the outbox.
fn put_others(best: &Option<Reading>, win: &WinRecord, outbox: &mut Outbox)
    requires { length outbox.old.bytes.items + MOST_OTHERS ≤ ROOM }
    ensures { (others : List ℕ) × AreOthers best.now win.now others
        × (outbox.new.bytes.items ≡ outbox.old.bytes.items ++ others) }
{
    if let Some(best) = best {
        put_each(best, ranked_readings(win).as_slice(), win, outbox);
    }
}

/// Puts the lines of each of these readings but the one that is shown into the outbox.
fn put_each(shown: &Reading, ranked: &[RankedReading], win: &WinRecord, outbox: &mut Outbox)
    requires few { length ranked.now ≤ 8 }
    requires sets { All (λ one. HasFourSets one.reading win.now) ranked.now }
    requires room { length outbox.old.bytes.items + MOST_OTHERS ≤ ROOM }
    ensures { outbox.new.bytes.items
        ≡ outbox.old.bytes.items ++ others_text shown.now ranked.now win.now }
{
    for one in ranked {
        outbox.why.clear();
        push_other_reading(&mut outbox.why, shown, one, win);
        outbox.put_why();
    }
}

fn put_kinds(hand: &HandRecord, outbox: &mut Outbox)
    requires { HasRoom outbox.old }
    ensures { outbox.new.bytes.items ≡ outbox.old.bytes.items
        ++ ((waits_text (waits_of hand.now) ++ 10 ∷ []) ++ waits_line (kind_waits hand.now)) }
{
    let waits = explain_waits(hand);
    put_waits(waits.kinds, outbox);
    outbox.why.clear();
    push_waits_line(&mut outbox.why, waits.rows.as_slice());
    outbox.put_why();
}

fn put_forms<S: RowSource>(tiles: &ShapeRecord, outbox: &mut Outbox, source: &mut S)
    requires { HasRoom outbox.old }
    ensures { (why : List ℕ) × IsShapeText tiles.now why
        × (outbox.new.bytes.items ≡ outbox.old.bytes.items ++ ((spec_shape.shape_text (shape_answer_of tiles.now) ++ 10 ∷ []) ++ why)) }
{
    put_shape(tiles, outbox, source);
    outbox.why.clear();
    push_shanten_line(&mut outbox.why, &explain_shape(source, tiles));
    outbox.put_why();
}

fn put_refused(rules: Rules, line: &[u8], refusal: &Refusal<'_>, outbox: &mut Outbox)
    requires room { HasRoom outbox.old }
    requires refusal { IsRefusalOf line.now refusal.now }
    ensures { PutsLine (IsRefusalWithWhy rules line.now refusal.now.fault)
        outbox.old.bytes.items outbox.new.bytes.items }
{
    put_fault(&refusal.fault, outbox);
    outbox.text.clear();
    push_refusal(&mut outbox.text, rules, line, refusal);
    outbox.put_piece();
}
