//! What is found of a question before any of its answer is put, since it may want more room than there is.
ghost use Rattle.std.specs.Prelude.{IfOk, OnErr, length};
ghost use Rattle.riichi_chances.specs.Graph.{most_hands_in};
ghost use Rattle.desk_study.specs.Ahead as spec;

use crate::found::{FoundChances, find_chances};
use crate::found_worths::{FoundWorths, find_worths};
use riichi_chances::{HandPlace, Rows, TooManyHands};
use riichi_shape::RowSource;
use riichi_study::Study;
use riichi_worth::WorthRow;

/// What is found ahead of an answer.
#[derive(Drop)]
pub(crate) enum Ahead {
    Nothing,
    Chances(FoundChances),
    Worths(FoundWorths),
}

/// Finds the chances or the worth that a question asks for, where it asks for one.
pub(crate) fn find_ahead<S: RowSource>(
    places: &mut [HandPlace],
    rows: &mut [Rows],
    worths: &mut [WorthRow],
    study: &Study,
    source: &mut S,
) -> Result<Ahead, TooManyHands>
    ensures found { IfOk result (spec.IsFoundOf study.now) }
    ensures many { OnErr result (spec.AsksTooMany
        (most_hands_in (length places.old) (length rows.old))
        (most_hands_in (length places.old) (length worths.old)) study.now) }
{
    match study {
        Study::Shape(_, _) | Study::Calls(_) | Study::Safe(_) => Ok(Ahead::Nothing),
        Study::Chances(hand, turns) => {
            let found = find_chances(places, rows, source, hand, *turns)?;
            Ok(Ahead::Chances(found))
        }
        Study::Worth(asked, turns) => {
            let hand = asked.hand();
            let stakes = asked.stakes();
            let found = find_worths(places, worths, source, &hand, &stakes, *turns)?;
            Ok(Ahead::Worths(found))
        }
    }
}
