//! The command `help-rules`: every rule that a house may choose.
ghost use Rattle.std.specs.Prelude.{◌≡◌, false, IfOk};

use crate::answers::printed;
use crate::failure::Failure;
use crate::noted::Notes;
use riichi_hand::{Rules, Switch};
use std::io::{self, Print};

/// How rules are named on the command line.
const OPTION: &str = "\
Rules on the command line
  --rules takes a profile and behind it each rule that is turned on or off, as 1+red-fives-ura; of a rule that stands there
  twice the last sign counts
";

/// Prints every rule that a house may choose, with what it means, and whether it is on in the profiles 1 and 2. No line is
/// refused.
pub fn print_rules<'a, R: Print>(rt: &R, notes: &Notes<'a>) -> Result<bool, Failure<'a>>
    ensures { IfOk result (λ is_refused. is_refused ≡ false) }
{
    printed(notes, print_table(rt))
}

fn print_table<R: Print>(rt: &R) -> io::Result<()> {
    println!(rt; "Rules\n  Word              1    2    On means")?;
    for switch in Switch::ALL {
        let word = switch.word();
        let first = on_or_off(Rules::One.has(switch));
        let second = on_or_off(Rules::Two.has(switch));
        let meaning = switch.meaning();
        println!(rt; "  {word:<16}  {first:<3}  {second:<3}  {meaning}")?;
    }
    print!(rt; "{OPTION}")
}

fn on_or_off(is_on: bool) -> &'static str {
    if is_on { "on" } else { "off" }
}
