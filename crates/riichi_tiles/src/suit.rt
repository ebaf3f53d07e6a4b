ghost use Rattle.std.specs.Prelude.{◌≡◌, ◌≤◌};
ghost use Rattle.riichi_tiles.specs.Kinds.{first_of, kinds_of};
ghost use Rattle.riichi_tiles.specs.Suits.{is_low, partner};

/// A suit: three have nine kinds each, and the honours are seven.
#[derive(Clone, Copy, Debug, PartialEq, Eq)]
pub enum Suit {
    /// 1m to 9m.
    Characters,
    /// 1p to 9p.
    Circles,
    /// 1s to 9s.
    Bamboos,
    /// East, South, West, North, White, Green, Red. No run is made of them.
    Honours,
}

const _: () = prove!(
    Suit::ALL[0] as u8 == 0
        && Suit::ALL[1] as u8 == 1
        && Suit::ALL[2] as u8 == 2
        && Suit::ALL[3] as u8 == 3
);

impl Suit {
    /// The four, in the order of their kinds.
    pub const ALL: [Suit; 4] = [
        Suit::Characters,
        Suit::Circles,
        Suit::Bamboos,
        Suit::Honours,
    ];

    /// The three whose tiles have numbers.
    pub const NUMBERED: [Suit; 3] = [Suit::Characters, Suit::Circles, Suit::Bamboos];

    /// The number of its first kind.
    pub fn first(self) -> usize
        ensures { result ≡ first_of self }
    {
        match self {
            Suit::Characters => 0,
            Suit::Circles => 9,
            Suit::Bamboos => 18,
            Suit::Honours => 27,
        }
    }

    /// How many kinds it has.
    pub fn kinds(self) -> usize
        ensures value { result ≡ kinds_of self }
        ensures nine { result ≤ 9 }
    {
        match self {
            Suit::Honours => 7,
            _ => 9,
        }
    }

    /// Whether it is of the lower half, the characters and the circles.
    pub fn is_low(self) -> bool
        ensures { result ≡ is_low self }
    {
        match self {
            Suit::Characters | Suit::Circles => true,
            Suit::Bamboos | Suit::Honours => false,
        }
    }

    /// The other suit of its half.
    pub fn partner(self) -> Suit
        ensures { result ≡ partner self }
    {
        match self {
            Suit::Characters => Suit::Circles,
            Suit::Circles => Suit::Characters,
            Suit::Bamboos => Suit::Honours,
            Suit::Honours => Suit::Bamboos,
        }
    }
}
