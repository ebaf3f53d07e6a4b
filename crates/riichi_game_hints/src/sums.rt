//! By how much the points of a written state miss those of the game.
use riichi_game_text::next_said;
use riichi_tiles::is_digit;

/// What the four points of a written state, and 1000 for each stick, add up to.
#[derive(Drop)]
pub(crate) enum Sum {
    /// Four times the start.
    Right,
    /// So many points more.
    More(u64),
    /// So many points fewer.
    Less(u64),
}

/// What the points of a line `stands` add up to; none where no numbers stand there.
pub(crate) fn sum_of(line: &[u8], start: u32) -> Option<Sum> {
    let sticks = first_number(behind(line, b"sticks")?)?;
    let points = four_numbers(behind(line, b"points")?)?;
    let said = points.saturating_add(sticks.saturating_mul(1000));
    let over = said.saturating_sub(i64::from(start).saturating_mul(4));
    Some(if over == 0 {
        Sum::Right
    } else if over > 0 {
        Sum::More(over.unsigned_abs())
    } else {
        Sum::Less(over.unsigned_abs())
    })
}

/// What stands behind a word of a line.
fn behind<'a>(line: &'a [u8], key: &[u8]) -> Option<&'a [u8]> {
    let mut rest = line;
    while let Some((word, after)) = next_said(rest) {
        if word == key {
            return Some(after);
        }
        rest = after;
    }
    None
}

fn first_number(text: &[u8]) -> Option<i64> {
    let (word, _) = next_said(text)?;
    number_of(word)
}

fn four_numbers(text: &[u8]) -> Option<i64> {
    let (first, rest) = next_said(text)?;
    let (second, rest) = next_said(rest)?;
    let (third, rest) = next_said(rest)?;
    let (fourth, _) = next_said(rest)?;
    let one = number_of(first)?.saturating_add(number_of(second)?);
    let other = number_of(third)?.saturating_add(number_of(fourth)?);
    Some(one.saturating_add(other))
}

/// The number of a word, which may begin with `-`.
fn number_of(word: &[u8]) -> Option<i64> {
    match word {
        [b'-', digits @ ..] => {
            let number = number_spelled(digits)?;
            Some(0i64.saturating_sub(number))
        }
        _ => number_spelled(word),
    }
}

pub(crate) fn number_spelled(digits: &[u8]) -> Option<i64> {
    let mut number = 0i64;
    for digit in digits {
        if !is_digit(*digit) {
            return None;
        }
        number = number
            .saturating_mul(10)
            .saturating_add(i64::from(digit.saturating_sub(b'0')));
    }
    Some(number)
}
