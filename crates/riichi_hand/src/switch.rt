//! One of the rules that a table may choose.
ghost use Rattle.std.specs.Prelude.{◌≡◌, ◌<◌, ◌≤◌, length};
ghost use Rattle.riichi_hand.specs.Rules as spec;

/// One of the rules that a table may choose. docs/RULES.md has each with a hand that it changes.
#[derive(Clone, Copy, Debug, PartialEq, Eq)]
pub enum Switch {
    /// A `0` is a red five, and one han of dora; off, it is a plain five.
    RedFives,
    /// Four han with 30 fu and three han with 60 are raised to a mangan (kiriage mangan).
    Raise,
    /// Several yakuman pay a limit each; off, one limit.
    AddYakuman,
    /// Big four winds, four concealed pungs completed in the pair, thirteen orphans on thirteen waits and nine gates on nine
    /// pay two limits (double yakuman).
    DoubleYakuman,
    /// 13 han and more pay a yakuman (kazoe yakuman); off, as much as 11 and 12 han.
    CountedYakuman,
    /// A pair both of the seat wind and of the prevalent wind has 4 fu; off, 2.
    DoubleWindPair,
    /// The draw after a kong has the 2 fu of any self-draw.
    KongDrawFu,
    /// All simples holds for an open hand too (kuitan).
    OpenSimples,
    /// An open hand won by ron whose fu are 20 counts 30; off, 20.
    OpenPinfuFu,
    /// A win within one turn of riichi has the yaku ippatsu.
    Ippatsu,
    /// The indicators below count.
    Ura,
    /// A win by ron before the own first draw, of a seat that isn't the dealer's, is a yakuman (renhou).
    BlessingOfMan,
}

impl Switch {
    /// Every one, in the order of the table in docs/RULES.md.
    pub const ALL: [Switch; Switch::COUNT] = [
        Switch::RedFives,
        Switch::Raise,
        Switch::AddYakuman,
        Switch::DoubleYakuman,
        Switch::CountedYakuman,
        Switch::DoubleWindPair,
        Switch::KongDrawFu,
        Switch::OpenSimples,
        Switch::OpenPinfuFu,
        Switch::Ippatsu,
        Switch::Ura,
        Switch::BlessingOfMan,
    ];

    /// How many there are.
    pub const COUNT: usize = 12;

    /// The bytes of the longest word.
    pub const MOST_WORD: usize = 16;

    /// Its place in that table, from 0 on.
    #[inline(always)]
    pub fn number(self) -> u8
        ensures value { result ≡ spec.switch_number self }
        ensures below { result < Switch.COUNT }
    {
        self as u8
    }

    /// Its word on a command line.
    pub fn word(self) -> &'static str
        ensures { result.now ≡ spec.switch_word self }
    {
        match self {
            Switch::RedFives => "red-fives",
            Switch::Raise => "raise",
            Switch::AddYakuman => "add-yakuman",
            Switch::DoubleYakuman => "double-yakuman",
            Switch::CountedYakuman => "counted-yakuman",
            Switch::DoubleWindPair => "double-wind-pair",
            Switch::KongDrawFu => "kong-draw-fu",
            Switch::OpenSimples => "open-simples",
            Switch::OpenPinfuFu => "open-pinfu-fu",
            Switch::Ippatsu => "ippatsu",
            Switch::Ura => "ura",
            Switch::BlessingOfMan => "blessing-of-man",
        }
    }

    /// What it means where it is on, in words.
    pub fn meaning(self) -> &'static str
        ensures { length result.now ≤ 140 }
    {
        match self {
            Switch::RedFives =>
                "a 0 is a red five (aka dora), and one han; off, it is a plain five",
            Switch::Raise => "four han 30 fu and three han 60 fu are a mangan (kiriage mangan)",
            Switch::AddYakuman => "several yakuman pay a limit each; off, one limit",
            Switch::DoubleYakuman =>
                "four concealed pungs completed in the pair, thirteen orphans on thirteen waits, nine gates on nine waits and big four winds pay two limits",
            Switch::CountedYakuman =>
                "13 han and more pay a yakuman (kazoe yakuman); off, as 11 and 12",
            Switch::DoubleWindPair =>
                "a pair of both the seat wind and the prevalent wind has 4 fu; off, 2",
            Switch::KongDrawFu => "the draw after a kong has the 2 fu of any self-draw",
            Switch::OpenSimples => "all simples holds for an open hand too (kuitan)",
            Switch::OpenPinfuFu => "an open hand won by ron whose fu are 20 counts 30; off, 20",
            Switch::Ippatsu => "a win within one turn of riichi has the yaku ippatsu",
            Switch::Ura => "the indicators below count (ura dora)",
            Switch::BlessingOfMan =>
                "the flag first by ron of a seat that isn't the dealer's is a yakuman (renhou); off, H15",
        }
    }
}
