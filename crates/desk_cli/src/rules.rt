//! Names of rules that are near to a word.
ghost use Rattle.std.specs.Prelude.{IfOk};
ghost use Rattle.desk_cli.specs.Near.{IsNearestRule};

use riichi_hand::Switch;
use std::alloc::{AllocError, Global};
use strsim::levenshtein;

/// The rule whose word is nearest to this one, where one is near: at most one letter in three is another.
pub fn nearest_rule(alloc: Global, word: &str) -> Result<Option<Switch>, AllocError>
    ensures { IfOk result (λ nearest. IsNearestRule word.now nearest) }
{
    let mut nearest = None;
    let mut least = word.len() / 3 + 1;
    for switch in Switch::ALL {
        let changes = levenshtein(alloc, word, switch.word())?;
        if changes < least {
            least = changes;
            nearest = Some(switch);
        }
    }
    Ok(nearest)
}
