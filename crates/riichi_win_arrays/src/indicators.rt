//! Indicators of dora as bytes.
ghost use Rattle.std.specs.Prelude.{◌≡◌};
ghost use Rattle.riichi_win_arrays.specs.WinRows as spec;

use riichi_arrays::counts_in;
use riichi_tiles::Counts;

/// The indicators of a row, none where a byte is no kind or five are the same.
pub(crate) fn indicators_in(bytes: &[u8; 5]) -> Option<Counts>
    ensures { result ≡ spec.indicators_in bytes.now }
{
    if are_kinds(bytes) {
        counts_in(&shown(bytes))
    } else {
        None
    }
}

/// Each byte is 0 or one more than a kind.
fn are_kinds(bytes: &[u8; 5]) -> bool
    ensures { result ≡ spec.are_kinds bytes.now }
{
    bytes.iter().all(|byte| *byte <= 34)
}

/// How many of the bytes stand for each kind.
fn shown(bytes: &[u8; 5]) -> [u8; 34]
    ensures { result ≡ spec.counts_of_bytes bytes.now }
{
    let mut shown = [0; 34];
    for byte in bytes {
        if *byte > 0 && *byte <= 34 {
            shown[*byte as usize - 1] += 1;
        }
    }
    shown
}
