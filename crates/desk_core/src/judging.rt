ghost use Rattle.std.specs.Prelude.{◌≡◌};
ghost use Rattle.desk_core.specs.Value.{value_of};

use crate::answer::Answer;
use riichi_cuts::waits_with;
use riichi_hand::Job;
use riichi_score::best;
use riichi_shape::{RowSource, shape, shape_with};
use riichi_split::waits;

/// The value of a job: the best score of a win, the waits of a hand, or the shanten and the
/// accepted tiles of a shape.
#[tactic(auto, unfolding(crate::specs::Value::value_of))]
pub fn judge(job: &Job) -> Answer
    ensures { result ≡ value_of job.now }
{
    match job {
        Job::Win(win) => Answer::Win(best(win)),
        Job::Waits(hand) => Answer::Waits(waits(hand)),
        Job::Shape(tiles) => Answer::Shape(shape(tiles)),
    }
}

/// The same, where waits are answered by the cuts of a source, and a shape by its rows: it is the same value, whatever the
/// source.
#[tactic(auto, unfolding(crate::specs::Value::value_of))]
pub fn judge_with<R: RowSource>(source: &mut R, job: &Job) -> Answer
    ensures value { result ≡ value_of job.now }
    ensures stays { source.new ≡ source.old }
{
    match job {
        Job::Win(win) => Answer::Win(best(win)),
        Job::Waits(hand) => Answer::Waits(waits_with(source, hand)),
        Job::Shape(tiles) => Answer::Shape(shape_with(source, tiles)),
    }
}
