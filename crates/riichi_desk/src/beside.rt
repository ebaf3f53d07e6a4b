//! What is said on a terminal beside the answer to one line.
use desk_notes::{WhyWords, meaning_of};
use riichi_hand::Rules;
use std::io::Eprint;

/// Says below the answer to a line what its refusal means, with a line to try where one is found; below any other answer, which
/// command explains it.
pub fn tell_beside<R: Eprint>(rt: &R, rules: Rules, is_refused: bool, line: &str) {
    if is_refused {
        let meaning = meaning_of(rules, line.as_bytes());
        let text = meaning.as_str();
        let _ = eprint!(rt; "{text}");
    } else {
        let words = WhyWords { rules, line };
        let _ = eprintln!(rt; "{words}");
    }
}
