//! The line that answers a hand of thirteen concealed tiles.
ghost use Rattle.std.specs.Prelude.{◌≡◌, ◌≢◌, ℕ, List, true, false};
ghost use Rattle.std.specs.List.{sum};
ghost use Rattle.riichi_tiles.specs.Notation.{Spells, IsFirstFault};
ghost use Rattle.riichi_tiles.specs.declared.notation.NotationFault.{NotationFault};
ghost use Rattle.riichi_tiles.specs.Tiles.{IsCounts};
ghost use Rattle.riichi_split.specs.Waits.{waits_of, waits_text};
ghost use Rattle.riichi_hand.specs.FaultTexts.{fault_text};
ghost use Rattle.riichi_hand.specs.declared.fault.LineCode.TheVariants.{H8};
ghost use Rattle.riichi_hand.specs.declared.fault.LineFault.TheVariants.{Line, Notation};
ghost use Rattle.riichi_hand.specs.declared.fault.TextName.TheVariants.{Hand};
ghost use Rattle.desk_lines.specs.WaitsLine.{concealed_hand};

use arrayvec::ArrayString;
use riichi_hand::{HandRecord, LineFault, TextName, fault_text};
use riichi_split::{push_waits, waits};
use riichi_tiles::{Counts, KindSet, Melds, read_counts};

/// The text of an answer, and whether it is a refusal.
#[derive(Clone, Copy)]
pub struct WaitsLine {
    /// One line, without its line feed.
    pub text: ArrayString<48>,
    /// The hand was refused: the text says why.
    pub refused: bool,
}

/// What the command `waits` prints for a hand in notation: `waits` and the kinds that complete its thirteen concealed
/// tiles, or the refusal `N1` to `N6` of its text, or `H8` where it has another number of tiles.
pub fn waits_answer(hand: &[u8]) -> WaitsLine
    ensures waits { (counts : List ℕ) → Spells hand.now counts → sum counts ≡ 13
        → (result.text.bytes ≡ waits_text (waits_of (concealed_hand counts))) × (result.refused ≡ false) }
    ensures not_thirteen { (counts : List ℕ) → Spells hand.now counts → sum counts ≢ 13
        → (result.text.bytes ≡ fault_text (Line H8)) × (result.refused ≡ true) }
    ensures fault { (fault : NotationFault) → IsFirstFault hand.now fault
        → (result.text.bytes ≡ fault_text (Notation Hand fault)) × (result.refused ≡ true) }
{
    match read_counts(hand) {
        Ok(counts) => answer_counts(counts),
        Err(fault) => refusal(&LineFault::Notation(TextName::Hand, fault)),
    }
}

/// The answer to some tiles that are a hand of their own.
#[tactic(auto, using(crate::proofs::ConcealedHands::answer_counts_facts))]
fn answer_counts(counts: Counts) -> WaitsLine
    requires { IsCounts counts }
    ensures waits { sum counts ≡ 13
        → (result.text.bytes ≡ waits_text (waits_of (concealed_hand counts))) × (result.refused ≡ false) }
    ensures not_thirteen { sum counts ≢ 13
        → (result.text.bytes ≡ fault_text (Line H8)) × (result.refused ≡ true) }
{
    match HandRecord::new(counts, Melds::new()) {
        Ok(hand) => answered(waits(&hand)),
        Err(fault) => refusal(&fault),
    }
}

fn answered(kinds: KindSet) -> WaitsLine
    ensures text { result.text.bytes ≡ waits_text kinds }
    ensures refused { result.refused ≡ false }
{
    let mut text = ArrayString::new();
    push_waits(&mut text, kinds);
    WaitsLine {
        text,
        refused: false,
    }
}

fn refusal(fault: &LineFault) -> WaitsLine
    ensures text { result.text.bytes ≡ fault_text fault.now }
    ensures refused { result.refused ≡ true }
{
    let mut text = ArrayString::new();
    text.push_str(fault_text(fault).as_str());
    WaitsLine {
        text,
        refused: true,
    }
}
