//! Laws of the texts.
ghost use Rattle.std.specs.Prelude.{◌≡◌, Some};
ghost use Rattle.json.specs.Json.{document};
ghost use Rattle.desk_json.specs.Text.{answer_json};
ghost use Rattle.desk_json.specs.Trees.{answer_tree};
ghost use Rattle.desk_json.specs.Whole as spec;

use desk_core::Answer;
use riichi_hand::Rules;
use riichi_score::{Payment, Score, WinAnswer};
use riichi_shape::{Accepts, Discard, DiscardList, LiveList, ShapeAnswer};

/// What a reader of JSON reads in the text of an answer is the answer's tree.
#[tactic(auto, using(crate::proofs::ReadBack::reads_back))]
pub fn each_text_reads_back(rules: Rules, answer: &Answer)
    ensures { document (answer_json rules answer.now) ≡ Some (answer_tree rules answer.now) }
{
    see_answer(answer);
}

/// Equal texts are those of equal answers, under the same rules or others.
#[tactic(auto, using(crate::proofs::ReadBack::same_texts))]
pub fn equal_texts_mean_equal_answers(
    rules: Rules,
    one: &Answer,
    other_rules: Rules,
    other: &Answer,
)
    ensures { answer_json rules one.now ≡ answer_json other_rules other.now → one.now ≡ other.now }
{
    see_answer(one);
    see_answer(other);
}

/// What the types of an answer's parts keep true.
fn see_answer(answer: &Answer)
    ensures { spec.IsWhole answer.now }
{
    match answer {
        Answer::Win(win) => see_win(win),
        Answer::Waits(kinds) => {
            let _bits = kinds.bits();
        }
        Answer::Shape(shape) => see_shape(shape),
    }
}

fn see_win(win: &WinAnswer)
    ensures { spec.IsWholeWin win.now }
{
    match win {
        WinAnswer::Won(score) => see_score(score),
        WinAnswer::NoYaku | WinAnswer::NoWin => {}
    }
}

fn see_score(score: &Score)
    ensures { spec.IsWholeScore score.now }
{
    let _han = score.han;
    let _fu = score.fu;
    let _dora = score.dora;
    let _base = score.base;
    let _gain = score.gain;
    let _bits = score.yaku.bits();
    see_payment(&score.payment);
}

fn see_payment(payment: &Payment)
    ensures { spec.IsWholePayment payment.now }
{
    match payment {
        Payment::Ron { points } => {
            let _points = *points;
        }
        Payment::Tsumo { other, dealer } => {
            let _other = *other;
            let _dealer = *dealer;
        }
        Payment::DealerTsumo { each } => {
            let _each = *each;
        }
    }
}

fn see_shape(shape: &ShapeAnswer)
    ensures { spec.IsWholeShape shape.now }
{
    let _shanten = shape.shanten;
    see_accepts(&shape.accepts);
}

fn see_accepts(accepts: &Accepts)
    ensures { spec.IsWholeAccepts accepts.now }
{
    match accepts {
        Accepts::Thirteen(accepted) => see_list(accepted),
        Accepts::Fourteen(discards) => see_discards(discards),
    }
}

#[tactic(auto, using(riichi_text::proofs::Pieces::some_there, crate::proofs::Seen::each_more))]
fn see_discards(discards: &DiscardList)
    ensures { spec.Each spec.IsWholeDiscard discards.now }
{
    for place in 0..discards.len() {
        if let Some(discard) = discards.get(place) {
            see_discard(&discard);
        }
    }
}

fn see_discard(discard: &Discard)
    ensures { spec.IsWholeDiscard discard.now }
{
    let _kind = discard.kind.index();
    see_list(&discard.accepted);
}

#[tactic(auto, using(crate::proofs::Seen::all_pairs_whole))]
fn see_list(list: &LiveList)
    ensures { spec.IsWholeList list.now }
{
    let _copies = list.copies();
    let _live = list.live();
}
