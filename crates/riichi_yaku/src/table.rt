//! The table of the yaku: each by name, with the word that is printed for it and its han.
ghost use Rattle.std.specs.Prelude.{◌≡◌, ◌<◌, ◌≤◌, length, if◌then◌else◌, true};
ghost use Rattle.riichi_yaku.specs.Table as spec;

/// A yaku. They stand in the order of the table; the yakuman are the last, from thirteen orphans on.
#[derive(Clone, Copy, Debug, PartialEq, Eq)]
pub enum Yaku {
    Riichi,
    DoubleRiichi,
    Ippatsu,
    FullyConcealed,
    Pinfu,
    PureDoubleChow,
    AllSimples,
    WhiteDragon,
    GreenDragon,
    RedDragon,
    SeatWind,
    PrevalentWind,
    AfterAKong,
    RobbingTheKong,
    LastTile,
    MixedTripleChow,
    PureStraight,
    OutsideHand,
    SevenPairs,
    TriplePung,
    ThreeKongs,
    AllPungs,
    ThreeConcealedPungs,
    LittleThreeDragons,
    AllTerminalsAndHonours,
    HalfFlush,
    TerminalsInAllSets,
    TwicePureDoubleChow,
    FullFlush,
    ThirteenOrphans,
    NineGates,
    FourConcealedPungs,
    BigThreeDragons,
    LittleFourWinds,
    BigFourWinds,
    AllHonours,
    AllTerminals,
    AllGreen,
    FourKongs,
    BlessingOfHeaven,
    BlessingOfEarth,
    BlessingOfMan,
}

/// A row of the table: the printed word, the han of a concealed hand and of an open one. These are 0 where the hand has to be
/// concealed, and for a yakuman.
#[derive(Clone, Copy)]
struct YakuRow {
    word: &'static str,
    concealed: u8,
    melded: u8,
}

fn row(word: &'static str, concealed: u8, melded: u8) -> YakuRow
    ensures word { result.word.now ≡ word.now }
    ensures concealed { result.concealed ≡ concealed }
    ensures melded { result.melded ≡ melded }
{
    YakuRow {
        word,
        concealed,
        melded,
    }
}

/// All of them at one place of memory, so that one is read without a copy of all.
static IN_ORDER: [Yaku; Yaku::COUNT] = Yaku::ALL;

impl Yaku {
    /// How many there are.
    pub const COUNT: usize = 42;

    /// The bytes of the longest word.
    pub const MOST_WORD: usize = "all-terminals-and-honours".len();

    /// The bytes of all words, each after a space.
    pub const MOST_WORDS: usize = 609;

    /// All of them, in the order of the table.
    pub const ALL: [Yaku; Yaku::COUNT] = [
        Yaku::Riichi,
        Yaku::DoubleRiichi,
        Yaku::Ippatsu,
        Yaku::FullyConcealed,
        Yaku::Pinfu,
        Yaku::PureDoubleChow,
        Yaku::AllSimples,
        Yaku::WhiteDragon,
        Yaku::GreenDragon,
        Yaku::RedDragon,
        Yaku::SeatWind,
        Yaku::PrevalentWind,
        Yaku::AfterAKong,
        Yaku::RobbingTheKong,
        Yaku::LastTile,
        Yaku::MixedTripleChow,
        Yaku::PureStraight,
        Yaku::OutsideHand,
        Yaku::SevenPairs,
        Yaku::TriplePung,
        Yaku::ThreeKongs,
        Yaku::AllPungs,
        Yaku::ThreeConcealedPungs,
        Yaku::LittleThreeDragons,
        Yaku::AllTerminalsAndHonours,
        Yaku::HalfFlush,
        Yaku::TerminalsInAllSets,
        Yaku::TwicePureDoubleChow,
        Yaku::FullFlush,
        Yaku::ThirteenOrphans,
        Yaku::NineGates,
        Yaku::FourConcealedPungs,
        Yaku::BigThreeDragons,
        Yaku::LittleFourWinds,
        Yaku::BigFourWinds,
        Yaku::AllHonours,
        Yaku::AllTerminals,
        Yaku::AllGreen,
        Yaku::FourKongs,
        Yaku::BlessingOfHeaven,
        Yaku::BlessingOfEarth,
        Yaku::BlessingOfMan,
    ];

    /// Its place in the table, from 0 on.
    pub fn number(self) -> u8
        ensures value { result ≡ spec.number self }
        ensures below { result < Yaku.COUNT }
    {
        self as u8
    }

    pub(crate) fn at(number: u8) -> Yaku
        requires { number < Yaku.COUNT }
        ensures { spec.number result ≡ number }
    {
        IN_ORDER[number as usize]
    }

    /// The printed word.
    #[tactic(auto, using(crate::proofs::Sets::word_short))]
    pub fn word(self) -> &'static str
        ensures value { result.now ≡ spec.word self }
        ensures short { length result.now ≤ Yaku.MOST_WORD }
    {
        self.row().word
    }

    /// The han. A yakuman has none, nor has a yaku of concealed hands in an open one.
    pub fn han(self, concealed: bool) -> u8
        ensures { result ≡ spec.han concealed self }
    {
        let row = self.row();
        if concealed { row.concealed } else { row.melded }
    }

    /// Whether it is worth the limit, whatever else holds.
    pub fn is_yakuman(self) -> bool
        ensures { result ≡ spec.yaku_is_yakuman self }
    {
        self.number() >= Yaku::ThirteenOrphans.number()
    }

    /// The row of the table. Those of the yakuman have no han.
    #[inline(always)]
    fn row(self) -> YakuRow
        ensures word { result.word.now ≡ (spec.row_of self).word }
        ensures concealed { result.concealed ≡ (spec.row_of self).concealed }
        ensures melded { result.melded ≡ (spec.row_of self).melded }
    {
        match self {
            Yaku::Riichi => row("riichi", 1, 0),
            Yaku::DoubleRiichi => row("double-riichi", 2, 0),
            Yaku::Ippatsu => row("ippatsu", 1, 0),
            Yaku::FullyConcealed => row("fully-concealed", 1, 0),
            Yaku::Pinfu => row("pinfu", 1, 0),
            Yaku::PureDoubleChow => row("pure-double-chow", 1, 0),
            Yaku::AllSimples => row("all-simples", 1, 1),
            Yaku::WhiteDragon => row("white-dragon", 1, 1),
            Yaku::GreenDragon => row("green-dragon", 1, 1),
            Yaku::RedDragon => row("red-dragon", 1, 1),
            Yaku::SeatWind => row("seat-wind", 1, 1),
            Yaku::PrevalentWind => row("prevalent-wind", 1, 1),
            Yaku::AfterAKong => row("after-a-kong", 1, 1),
            Yaku::RobbingTheKong => row("robbing-the-kong", 1, 1),
            Yaku::LastTile => row("last-tile", 1, 1),
            Yaku::MixedTripleChow => row("mixed-triple-chow", 2, 1),
            Yaku::PureStraight => row("pure-straight", 2, 1),
            Yaku::OutsideHand => row("outside-hand", 2, 1),
            Yaku::SevenPairs => row("seven-pairs", 2, 0),
            Yaku::TriplePung => row("triple-pung", 2, 2),
            Yaku::ThreeKongs => row("three-kongs", 2, 2),
            Yaku::AllPungs => row("all-pungs", 2, 2),
            Yaku::ThreeConcealedPungs => row("three-concealed-pungs", 2, 2),
            Yaku::LittleThreeDragons => row("little-three-dragons", 2, 2),
            Yaku::AllTerminalsAndHonours => row("all-terminals-and-honours", 2, 2),
            Yaku::HalfFlush => row("half-flush", 3, 2),
            Yaku::TerminalsInAllSets => row("terminals-in-all-sets", 3, 2),
            Yaku::TwicePureDoubleChow => row("twice-pure-double-chow", 3, 0),
            Yaku::FullFlush => row("full-flush", 6, 5),
            yakuman => row(yakuman.yakuman_word(), 0, 0),
        }
    }

    /// The printed word of a yakuman.
    #[inline(always)]
    fn yakuman_word(self) -> &'static str
        ensures { spec.yaku_is_yakuman self ≡ true → result.now ≡ spec.word self }
    {
        match self {
            Yaku::ThirteenOrphans => "thirteen-orphans",
            Yaku::NineGates => "nine-gates",
            Yaku::FourConcealedPungs => "four-concealed-pungs",
            Yaku::BigThreeDragons => "big-three-dragons",
            Yaku::LittleFourWinds => "little-four-winds",
            Yaku::BigFourWinds => "big-four-winds",
            Yaku::AllHonours => "all-honours",
            Yaku::AllTerminals => "all-terminals",
            Yaku::AllGreen => "all-green",
            Yaku::FourKongs => "four-kongs",
            Yaku::BlessingOfHeaven => "blessing-of-heaven",
            Yaku::BlessingOfEarth => "blessing-of-earth",
            Yaku::BlessingOfMan => "blessing-of-man",
            _ => "",
        }
    }
}
