//! Sessions in which nobody meets twice, by a rule.
ghost use Rattle.std.specs.Prelude.{◌<◌};

use crate::ring::Ring;

/// How often four groups of players are cut into four groups at most.
const MOST_CUTS: u16 = 4;

/// The player of a seat of a table in a session, by a rule under which nobody meets twice; none in a session for which there is no
/// rule.
///
/// The players are four groups, as many in each as there are tables. At each table sits one of each group, and from session to
/// session the groups are shifted against one another, as a [`Ring`] does it. When there is no shift left, each group plays by
/// itself, if it fills its tables.
pub(crate) fn player_by_rule(tables: u16, session: u16, table: u16, seat: u16) -> Option<u16>
    requires { seat < 4 }
{
    let mut size = tables;
    let mut left = session;
    let mut number = table;
    let mut first: u16 = 0;
    for _ in 0..MOST_CUTS {
        let ring = Ring::new(size);
        let shifts = ring.shifts();
        if left < shifts {
            let own = size.saturating_mul(seat);
            let player = ring.shifted(number, seat, left);
            return Some(first.saturating_add(own).saturating_add(player));
        }
        if size % 4 != 0 {
            return None;
        }
        left -= shifts;
        let group = number / (size / 4).max(1);
        first = first.saturating_add(group.saturating_mul(size));
        number %= (size / 4).max(1);
        size /= 4;
    }
    None
}
