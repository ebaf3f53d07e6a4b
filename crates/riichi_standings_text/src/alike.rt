//! Names that may be one player's.

/// Whether two names differ by the case of ASCII letters alone, or by one letter that is another, or that one of them lacks. A digit is
/// no letter.
pub fn are_alike(one: &str, other: &str) -> bool {
    one.eq_ignore_ascii_case(other) || differ_by_a_letter(one, other)
}

fn differ_by_a_letter(one: &str, other: &str) -> bool {
    let mut ones = one.chars();
    let mut others = other.chars();
    for first in one.chars() {
        let (own, behind) = (ones.as_str(), others.as_str());
        ones.next();
        match others.next() {
            None => return first.is_alphabetic() && ones.as_str().is_empty(),
            Some(second) if first == second => {}
            Some(second) => {
                let (rest, after) = (ones.as_str(), others.as_str());
                return first.is_alphabetic() && second.is_alphabetic() && rest == after
                    || first.is_alphabetic() && rest == behind
                    || second.is_alphabetic() && own == after;
            }
        }
    }
    match others.next() {
        None => false,
        Some(second) => second.is_alphabetic() && others.as_str().is_empty(),
    }
}
