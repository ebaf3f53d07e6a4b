//! The rules that a caller's number names, and the number of those that a text names.
ghost use Rattle.std.specs.Prelude.{◌≡◌, ◌+◌};
ghost use Rattle.riichi_desk_c.specs.RulesRead.{IsReadAs};
ghost use Rattle.riichi_desk_c.specs.Replies as spec;

use riichi_hand::{Rules, Switch, read_rules};

/// `RIICHI_HOUSE`: the number of the rules of a house of which none is on.
const HOUSE: u32 = 0x1_0000;

/// The number of those of which all are on.
const FULL_HOUSE: u32 = HOUSE + (1 << Switch::COUNT) - 1;

/// The rules of this number: a profile, or `RIICHI_HOUSE` and the bits of the rules that are on.
pub(crate) fn rules_numbered(number: u32) -> Option<Rules>
    ensures { result ≡ spec.rules_numbered number }
{
    match number {
        1 => Some(Rules::One),
        2 => Some(Rules::Two),
        HOUSE..=FULL_HOUSE => Some(Rules::from_bits((number - HOUSE) as u16)),
        _ => None,
    }
}

/// The number of rules as those of a house.
fn house_number(rules: Rules) -> u32
    ensures { result ≡ 65536 + rules }
{
    HOUSE + u32::from(rules.bits())
}

/// The number of the rules that a text such as `2` or `1+red-fives-ura` names, for the calls that take one. It is 0 where the text
/// names none, and `wrong` is set to the place of the first wrong word; else that stays as it is.
#[unsafe(no_mangle)]
pub extern "C" fn riichi_rules(text: &[u8], wrong: &mut usize) -> u32
    ensures { IsReadAs text.now wrong.old wrong.new result }
{
    match read_rules(text) {
        Ok(rules) => house_number(rules),
        Err(fault) => {
            *wrong = fault.place;
            0
        }
    }
}
