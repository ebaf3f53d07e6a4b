//! Many hands as arrays, without text.
ghost use Rattle.std.specs.Prelude.{◌≡◌, ◌≤◌, [], length, min};
ghost use Rattle.riichi_arrays.specs.Columns.{IsFilled, hand_at, shanten_by, shape_at, told_discards, told_shape, waits_by};
ghost use Rattle.riichi_arrays.specs.Further.{calls_at, good_in, kinds_told, live_told, melds_told, outlook_by, second_in, thirteen_at};

use riichi_arrays::{Hands, calls, discards, outlooks, shantens, shapes, waits};

/// The shanten of each hand of thirteen or fourteen tiles, -128 of a row that is none: of as many as both `counts` and `shantens`
/// have rows, which it returns.
#[unsafe(no_mangle)]
pub extern "C" fn riichi_shantens(
    counts: &[[u8; 34]],
    melds: &[[u8; 4]],
    shanten: &mut [i8],
) -> usize
    ensures rows { result ≡ min (length counts.now) (length shanten.old) }
    ensures shanten { IsFilled (λ row. shanten_by (shape_at counts.now melds.now [] row)) result
        shanten.old shanten.new }
{
    let hands = Hands {
        counts,
        melds,
        seen: &[],
    };
    shantens(&hands, shanten)
}

/// Of each hand of thirteen tiles its shanten, the kinds that it accepts, a bit for each, and their live copies: of as many as
/// `counts` and the columns have rows, which it returns. A row that is none has the shanten -128 and accepts nothing.
#[unsafe(no_mangle)]
pub extern "C" fn riichi_shapes(
    counts: &[[u8; 34]],
    melds: &[[u8; 4]],
    seen: &[[u8; 34]],
    shanten: &mut [i8],
    accepts: &mut [u64],
    live: &mut [[u8; 34]],
) -> usize
    ensures rows { result
        ≡ min (length counts.now)
        (min (length shanten.old) (min (length accepts.old) (length live.old))) }
    ensures shanten { IsFilled (λ row. (told_shape counts.now melds.now seen.now row).shanten)
        result shanten.old shanten.new }
    ensures accepts { IsFilled (λ row. (told_shape counts.now melds.now seen.now row).accepts)
        result accepts.old accepts.new }
    ensures live { IsFilled (λ row. (told_shape counts.now melds.now seen.now row).live)
        result live.old live.new }
{
    let hands = Hands {
        counts,
        melds,
        seen,
    };
    shapes(&hands, shanten, accepts, live)
}

/// Of each hand of fourteen tiles its shanten and the kinds whose discard leaves the least, a bit for each; and for each of these
/// what the rest then accepts, a bit for each kind, and how many copies of those are live in all: of as many as `counts` and the
/// columns have rows, which it returns. A row that is none has the shanten -128 and no discards.
#[unsafe(no_mangle)]
pub extern "C" fn riichi_discards(
    counts: &[[u8; 34]],
    melds: &[[u8; 4]],
    seen: &[[u8; 34]],
    shanten: &mut [i8],
    kinds: &mut [u64],
    accepts: &mut [[u64; 34]],
    live: &mut [[u8; 34]],
) -> usize
    ensures rows { result ≡ min (length counts.now)
        (min (length shanten.old)
        (min (length kinds.old) (min (length accepts.old) (length live.old)))) }
    ensures shanten { IsFilled (λ row. (told_discards counts.now melds.now seen.now row).shanten)
        result shanten.old shanten.new }
    ensures kinds { IsFilled (λ row. (told_discards counts.now melds.now seen.now row).kinds)
        result kinds.old kinds.new }
    ensures accepts { IsFilled (λ row. (told_discards counts.now melds.now seen.now row).accepts)
        result accepts.old accepts.new }
    ensures live { IsFilled (λ row. (told_discards counts.now melds.now seen.now row).live)
        result live.old live.new }
{
    let hands = Hands {
        counts,
        melds,
        seen,
    };
    discards(&hands, shanten, kinds, accepts, live)
}

/// The kinds that each hand of thirteen tiles waits for, a bit for each, all bits of a row that is none: of as many as both
/// `counts` and `kinds` have rows, which it returns.
#[unsafe(no_mangle)]
pub extern "C" fn riichi_waits_of(
    counts: &[[u8; 34]],
    melds: &[[u8; 4]],
    kinds: &mut [u64],
) -> usize
    ensures rows { result ≡ min (length counts.now) (length kinds.old) }
    ensures kinds { IsFilled (λ row. waits_by (hand_at counts.now melds.now row)) result
        kinds.old kinds.new }
{
    let hands = Hands {
        counts,
        melds,
        seen: &[],
    };
    waits(&hands, kinds)
}

/// Of each hand of thirteen tiles its shanten, and where it isn't ready its second and good, else 0: of as many as `counts` and the
/// columns have rows, which it returns. A row that is no such hand has the shanten -128.
#[unsafe(no_mangle)]
pub extern "C" fn riichi_deeper(
    counts: &[[u8; 34]],
    melds: &[[u8; 4]],
    seen: &[[u8; 34]],
    shanten: &mut [i8],
    second: &mut [u16],
    good: &mut [u8],
) -> usize
    ensures rows { result
        ≡ min (length counts.now)
        (min (length shanten.old) (min (length second.old) (length good.old))) }
    ensures shanten { IsFilled (λ row. shanten_by (thirteen_at counts.now melds.now seen.now row))
        result shanten.old shanten.new }
    ensures second { IsFilled
        (λ row. second_in (outlook_by (thirteen_at counts.now melds.now seen.now row)))
        result second.old second.new }
    ensures good { IsFilled
        (λ row. good_in (outlook_by (thirteen_at counts.now melds.now seen.now row)))
        result good.old good.new }
{
    let hands = Hands {
        counts,
        melds,
        seen,
    };
    outlooks(&hands, shanten, second, good)
}

/// Of each hand of thirteen tiles and a thrown tile the calls after which some discard leaves the hand nearer, for a run of which
/// the tile is the highest, the middle or the lowest, and for a triplet; of each its meld, the best discards, a bit for each kind,
/// and how many copies are live after each: of as many as `counts`, `thrown` and the columns have rows, which it returns.
#[unsafe(no_mangle)]
pub extern "C" fn riichi_calls(
    counts: &[[u8; 34]],
    melds: &[[u8; 4]],
    seen: &[[u8; 34]],
    thrown: &[[u8; 2]],
    called: &mut [[u8; 4]],
    kinds: &mut [[u64; 4]],
    live: &mut [[[u8; 34]; 4]],
) -> usize
    ensures rows { result ≡ min (length counts.now) (min (length thrown.now)
        (min (length called.old) (min (length kinds.old) (length live.old)))) }
    ensures called { IsFilled
        (λ row. melds_told (calls_at counts.now melds.now seen.now thrown.now row))
        result called.old called.new }
    ensures kinds { IsFilled
        (λ row. kinds_told (calls_at counts.now melds.now seen.now thrown.now row))
        result kinds.old kinds.new }
    ensures live { IsFilled
        (λ row. live_told (calls_at counts.now melds.now seen.now thrown.now row))
        result live.old live.new }
{
    let hands = Hands {
        counts,
        melds,
        seen,
    };
    calls(&hands, thrown, called, kinds, live)
}
