//! The players of a list of names.
ghost use Rattle.std.specs.Prelude.{◌≡◌, None, Some, option_map};
ghost use Rattle.riichi_game_text.specs.Names.{names_in, player_named};
ghost use Rattle.riichi_game_text.specs.Listed as spec;

use crate::name::Names;
use riichi_table::ByPlayer;
use riichi_tiles::split_at_mark;

/// The players of names with commas between them, none of them twice.
#[tactic(auto, using(crate::proofs::ListLemmas::list_facts), unfolding(crate::specs::Listed::players_of))]
pub(crate) fn players_of(names: &Names, list: &[u8]) -> Option<ByPlayer<bool>>
    ensures { result ≡ spec.players_of (names_in names.now) list.now }
{
    let mut listed = ByPlayer::all(false);
    let mut rest = list;
    while let Some((name, after)) = split_at_mark(rest, b',') {
        listed = with_another(names, listed, name)?;
        rest = after;
    }
    with_another(names, listed, rest)
}

/// One player more, who wasn't among them.
fn with_another(names: &Names, listed: ByPlayer<bool>, name: &[u8]) -> Option<ByPlayer<bool>>
    ensures { result ≡ spec.with_another listed (player_named (names_in names.now) name.now) }
{
    let player = names.find(name)?;
    if listed.get(player) {
        None
    } else {
        Some(listed.with(player, true))
    }
}

/// The players of names with commas between them, and nobody where nothing is said; none where a name is no player's, or stands
/// twice.
pub fn players_if_said(names: &Names, list: Option<&[u8]>) -> Option<ByPlayer<bool>>
    ensures { result
        ≡ spec.players_if_said (names_in names.now) (option_map (λ list. list.now) list.entry) }
{
    match list {
        None => Some(ByPlayer::all(false)),
        Some(list) => players_of(names, list),
    }
}
