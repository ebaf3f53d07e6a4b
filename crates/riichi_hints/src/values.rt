//! The values that are no tiles, as players write them.
use crate::names::name_of;

/// The winds by their names in English, Japanese, Chinese, German, French, Polish, Spanish and Italian, in small letters without
/// marks, by their letters and by their numbers; East also as the dealer.
const WINDS: [(&str, &str); 49] = [
    ("e", "E"),
    ("1", "E"),
    ("east", "E"),
    ("ton", "E"),
    ("tou", "E"),
    ("higashi", "E"),
    ("dong", "E"),
    ("tung", "E"),
    ("ost", "E"),
    ("osten", "E"),
    ("est", "E"),
    ("este", "E"),
    ("wschod", "E"),
    ("dealer", "E"),
    ("oya", "E"),
    ("s", "S"),
    ("2", "S"),
    ("south", "S"),
    ("nan", "S"),
    ("minami", "S"),
    ("sued", "S"),
    ("sueden", "S"),
    ("suden", "S"),
    ("sud", "S"),
    ("sur", "S"),
    ("poludnie", "S"),
    ("w", "W"),
    ("3", "W"),
    ("west", "W"),
    ("westen", "W"),
    ("shaa", "W"),
    ("sha", "W"),
    ("nishi", "W"),
    ("xi", "W"),
    ("ouest", "W"),
    ("ovest", "W"),
    ("oeste", "W"),
    ("zachod", "W"),
    ("n", "N"),
    ("4", "N"),
    ("north", "N"),
    ("pei", "N"),
    ("pe", "N"),
    ("kita", "N"),
    ("bei", "N"),
    ("nord", "N"),
    ("norden", "N"),
    ("norte", "N"),
    ("polnoc", "N"),
];

/// Words that take back the one behind them.
const NEGATIONS: [&str; 10] = [
    "no", "not", "non", "without", "kein", "keine", "ohne", "sans", "bez", "nie",
];

/// The wind that a word names; also with the number of a hand behind it, as `E1` and `east-1`.
pub(crate) fn wind_named(word: &[u8]) -> Option<&'static str> {
    let name = name_of(word)?;
    match name.as_slice() {
        [wind @ .., b'1'..=b'4'] if !wind.is_empty() => wind_of_name(wind),
        name => wind_of_name(name),
    }
}

/// Whether a word names a wind with the number of a hand behind it: it is the wind of the round.
pub(crate) fn is_hand_of_round(word: &[u8]) -> bool {
    matches!(word, [_, .., b'1'..=b'4']) && wind_named(word).is_some()
}

/// Whether a word names the dealer.
pub(crate) fn is_dealer(word: &[u8]) -> bool {
    match name_of(word) {
        Some(name) => matches!(name.as_slice(), b"dealer" | b"oya"),
        None => false,
    }
}

/// Whether a word says that a meld is concealed.
pub(crate) fn is_concealed(word: &[u8]) -> bool {
    match name_of(word) {
        Some(name) => matches!(name.as_slice(), b"closed" | b"concealed" | b"hidden"),
        None => false,
    }
}

/// Whether a word takes back the one behind it.
pub(crate) fn is_negation(word: &[u8]) -> bool {
    match name_of(word) {
        Some(name) => {
            let name = name.as_slice();
            NEGATIONS.iter().any(|known| known.as_bytes() == name)
        }
        None => false,
    }
}

fn wind_of_name(name: &[u8]) -> Option<&'static str> {
    for (known, wind) in &WINDS {
        if known.as_bytes() == name {
            return Some(*wind);
        }
    }
    None
}

/// A wind by its name. What names none is `?`, which no line may have.
pub(crate) fn wind_of(value: &[u8]) -> &'static str {
    if value.is_empty() {
        return "";
    }
    wind_named(value).unwrap_or("?")
}

/// How a hand is won, by the first letter: `r`on, `d`iscard; `t`sumo, `s`elf-draw, `z`imo.
pub(crate) fn by_of(value: &[u8]) -> &'static str {
    match value {
        [b'r' | b'R' | b'd' | b'D', ..] => "ron",
        [b't' | b'T' | b's' | b'S' | b'z' | b'Z', ..] => "tsumo",
        [] => "",
        _ => "?",
    }
}

/// Riichi: 2 where the value says double, 0 where it says no.
pub(crate) fn riichi_of(value: &[u8]) -> u8 {
    match value {
        [b'2' | b'd' | b'D', ..] => 2,
        _ => if is_no(value) { 0 } else { 1 },
    }
}

/// A value that says no: `0`, `no`, `none`, `false`, `-`.
pub(crate) fn is_no(value: &[u8]) -> bool {
    matches!(value, [b'0' | b'n' | b'N' | b'f' | b'F' | b'-', ..])
}

/// A value that says that there is nothing.
pub(crate) fn is_none(value: &[u8]) -> bool {
    matches!(
        value,
        b"no" | b"none" | b"No" | b"None" | b"0" | b"-" | b"false"
    )
}

/// A number: of one that goes on with letters the first digit.
pub(crate) fn number_of(value: &[u8]) -> &[u8] {
    match value {
        [b'0'..=b'9', b'a'..=b'z' | b'A'..=b'Z', ..] => &value[..1],
        _ => value,
    }
}
