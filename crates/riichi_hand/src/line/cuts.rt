//! The words of a line, and the marks of a text.
ghost use Rattle.std.specs.Prelude.{◌≡◌, ◌<◌, ◌≤◌, ◌==◌, [], ◌∷◌, ◌++◌, false, true, length, IfSome, MatchOption, is_some, not, take, drop};
ghost use Rattle.std.specs.List.{list_all, position_or_len};
ghost use Rattle.riichi_tiles.specs.Melds.{cut_at};
ghost use Rattle.riichi_hand.specs.Words.{words_of, is_space, without_spaces, begins_with_space, BeginsWithSpaces, from_words, word_of};

/// The first word of a text, and all that comes after it.
#[tactic(auto, using(crate::proofs::WordLemmas::first_from))]
pub fn next_word(text: &[u8]) -> Option<(&[u8], &[u8])>
    ensures words { MatchOption result (words_of text.now ≡ []) (λ found.
        (words_of text.now ≡ found.0.now ∷ words_of found.1.now) × (length found.1.now < length text.now)) }
    ensures text { IfSome result (λ found.
        BeginsWithSpaces text.now (found.0.now ++ found.1.now)) }
    ensures from { MatchOption result (from_words text.now ≡ [])
        (λ found. from_words found.1.now ≡ drop 1 (from_words text.now)) }
{
    let text = without_spaces(text);
    if text.is_empty() {
        return None;
    }
    Some(text.split_at(word_len(text)))
}

/// The text without the spaces that it begins with.
#[tactic(auto, using(crate::proofs::WordLemmas::without_spaces_facts))]
pub fn without_spaces(text: &[u8]) -> &[u8]
    ensures value { result.now ≡ without_spaces text.now }
    ensures from { from_words result.now ≡ from_words text.now }
    ensures text { BeginsWithSpaces text.now result.now }
    ensures begins { begins_with_space result.now ≡ false }
    ensures shorter { length result.now ≤ length text.now }
{
    text.split_at(spaces_len(text)).1
}

/// The word with which a text begins.
pub fn word_of(from: &[u8]) -> &[u8]
    ensures { result.now ≡ word_of from.now }
{
    from.split_at(word_len(from)).0
}

/// The word with which a text begins, and all that comes after it.
#[tactic(auto, using(crate::proofs::WordLemmas::first_from))]
pub(crate) fn cut_word(from: &[u8]) -> (&[u8], &[u8])
    requires some { 0 < length from.now }
    requires begins { begins_with_space from.now ≡ false }
    ensures word { result.0.now ≡ word_of from.now }
    ensures from { from_words from.now ≡ from.now ∷ from_words result.1.now }
    ensures shorter { length result.1.now < length from.now }
{
    from.split_at(word_len(from))
}

/// How many spaces a text begins with.
fn spaces_len(text: &[u8]) -> usize
    ensures bound { result ≤ length text.now }
    ensures spaces { list_all (λ byte. byte == 32) (take result text.now) ≡ true }
    ensures rest { result < length text.now → begins_with_space (drop result text.now) ≡ false }
{
    let mut len = 0;
    while len < text.len() && text[len] == b' ' {
        len += 1;
    }
    len
}

/// How many bytes come before the first space.
pub fn word_len(text: &[u8]) -> usize
    ensures place { result ≡ position_or_len is_space text.now }
    ensures bound { result ≤ length text.now }
    ensures word { list_all (λ byte. not (byte == 32)) (take result text.now) ≡ true }
    ensures rest { result < length text.now → begins_with_space (drop result text.now) ≡ true }
{
    let mut len = 0;
    while len < text.len() && text[len] != b' ' {
        len += 1;
    }
    len
}

/// Whether a mark stands in a text.
pub(crate) fn has_mark(text: &[u8], mark: u8) -> bool
    ensures { result ≡ is_some (cut_at mark text.now) }
{
    let mut found = false;
    for byte in text {
        found = found | (*byte == mark);
    }
    found
}
