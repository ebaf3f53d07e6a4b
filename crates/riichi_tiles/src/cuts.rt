//! Texts cut at a mark.
ghost use Rattle.std.specs.Prelude.{◌≡◌, ◌<◌, length, MatchOption, None, Some};
ghost use Rattle.riichi_tiles.specs.Melds.{cut_at};

/// What stands before and after the first mark.
pub fn split_at_mark(text: &[u8], mark: u8) -> Option<(&[u8], &[u8])>
    ensures { MatchOption result (cut_at mark text.now ≡ None)
        (λ cut. (cut_at mark text.now ≡ Some (cut.0.now, cut.1.now)) × (length cut.1.now < length text.now)) }
{
    for (place, byte) in text.iter().enumerate() {
        if *byte == mark {
            return Some((&text[..place], &text[place + 1..]));
        }
    }
    None
}
