//! The command `help-yaku`: every yaku, by the word that is printed and by its Japanese name.
ghost use Rattle.std.specs.Prelude.{◌≡◌, false, IfOk};

use crate::answers::printed;
use crate::failure::Failure;
use crate::noted::Notes;
use riichi_names::{condition_words, japanese};
use riichi_yaku::Yaku;
use std::io::{self, Print};

/// Prints every yaku with its number, its names, its han and when it holds. No line is refused.
pub fn print_yaku<'a, R: Print>(rt: &R, notes: &Notes<'a>) -> Result<bool, Failure<'a>>
    ensures { IfOk result (λ is_refused. is_refused ≡ false) }
{
    printed(notes, print_tables(rt))
}

fn print_tables<R: Print>(rt: &R) -> io::Result<()> {
    println!(rt;
        "Yaku\n  No  Word                       Japanese          Concealed  Open  Condition"
    )?;
    for yaku in Yaku::ALL {
        if yaku.number() == Yaku::ThirteenOrphans.number() {
            println!(rt; "Yakuman\n  No  Word                       Japanese          Condition")?;
        }
        print_row(rt, yaku)?;
    }
    Ok(())
}

/// The row of a yaku; a yakuman has no han.
fn print_row<R: Print>(rt: &R, yaku: Yaku) -> io::Result<()> {
    let (number, word, name) = (yaku.number(), yaku.word(), japanese(yaku));
    let condition = condition_words(yaku);
    if yaku.is_yakuman() {
        return println!(rt; "  {number:>2}  {word:<25}  {name:<16}  {condition}");
    }
    let concealed = yaku.han(true);
    match yaku.han(false) {
        0 => println!(rt;
            "  {number:>2}  {word:<25}  {name:<16}  {concealed:>9}     -  {condition}"
        ),
        open => println!(rt;
            "  {number:>2}  {word:<25}  {name:<16}  {concealed:>9}  {open:>4}  {condition}"
        ),
    }
}
