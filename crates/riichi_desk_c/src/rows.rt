//! The rows of an array of texts, many by one call.
ghost use Rattle.std.specs.Prelude.{◌≡◌, ◌≤◌, ◌<◌, MatchOption, length, slice_range};
ghost use Rattle.riichi_desk_c.specs.Rows.{AnswersRows};

use crate::riichi_answer;

/// Answers the rows of an array of texts, from the first on, as many as have room, and puts the place of each answer beside them,
/// as Arrow's large_utf8 has it: how many rows. A row whose offsets go back or beyond the bytes is not answered, nor is one after it.
#[unsafe(no_mangle)]
#[tactic(auto, using(riichi_arrays::proofs::ColumnLemmas::fill_next, crate::proofs::RowLemmas::riichi_answer_rows_facts))]
pub extern "C" fn riichi_answer_rows(
    rules: u32,
    bytes: &[u8],
    offsets: &[u64],
    room: &mut [u8],
    answer_offsets: &mut [u64],
) -> usize
    ensures { AnswersRows rules bytes.now offsets.now room.old room.new
        answer_offsets.old answer_offsets.new result }
{
    if answer_offsets.is_empty() {
        return 0;
    }
    answer_offsets[0] = 0;
    let rows = offsets
        .len()
        .saturating_sub(1)
        .min(answer_offsets.len() - 1);
    let mut filled = 0;
    for row in 0..rows {
        let Some(text) = row_text(bytes, offsets[row], offsets[row + 1]) else {
            return row;
        };
        let needed = riichi_answer(rules, text, &mut room[filled..]);
        if needed > room.len() - filled {
            return row;
        }
        filled += needed;
        answer_offsets[row + 1] = filled as u64;
    }
    rows
}

/// The bytes between two places, if these are places of theirs, in their order.
fn row_text(bytes: &[u8], start: u64, end: u64) -> Option<&[u8]>
    ensures { MatchOption result (start ≤ end → end ≤ length bytes.now → ⊥)
        (λ text. (start ≤ end) × (end ≤ length bytes.now) × (text.now ≡ slice_range bytes.now start end)) }
{
    if start <= end && end <= bytes.len() as u64 {
        Some(&bytes[start as usize..end as usize])
    } else {
        None
    }
}
