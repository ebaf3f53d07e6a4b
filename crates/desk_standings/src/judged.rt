//! Texts that are judged side by side.
ghost use Rattle.std.specs.Prelude.{◌≡◌, ℕ, ◌<◌, IfOk, length, slice_index, slice_index_or, vec_len};
ghost use Rattle.desk_standings.specs.Ended as spec;

use crate::ended::{EndedGame, ended_games};
use crate::trouble::Trouble;
use riichi_hand::Rules;
use std::alloc::{AllocError, Global};
use std::thread::{self, Threads};

/// The games of each of some texts, or what is at fault with it, in the order of the texts. Each is read in a thread of its own, where
/// there can be one: so there should be few.
pub fn judge_texts<R: Threads + Sync>(
    rt: &R,
    alloc: Global,
    given: Rules,
    texts: &[Vec<u8>],
) -> Result<Vec<Result<Vec<EndedGame>, Trouble>>, AllocError>
    ensures len { IfOk result (λ judged. vec_len judged ≡ length texts.now) }
    ensures each { IfOk result (λ judged. spec.AreJudged given texts.now judged.items) }
{
    thread::map_indices(
        rt,
        alloc,
        texts.len(),
        &|number| { ended_games(alloc, given, texts[number].as_slice()) },
    )
}
