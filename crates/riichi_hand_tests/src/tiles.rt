use crate::facts::{holds, same};
use riichi_tiles::*;
use std::process::Abort;

/// The tiles of a text.
fn counts_of(rt: &impl Abort, text: &[u8]) -> Counts {
    read_counts(text).ok().expect(rt, "a text of tiles")
}

#[test]
fn tells_the_first_fault_of_a_text(rt: HostRuntime) {
    static ROWS: [(&[u8], NotationCode, usize); 15] = [
        (b"", NotationCode::N1, 0),
        (b"12x3m", NotationCode::N2, 2),
        (b"9x2z", NotationCode::N2, 1),
        (b"1 m", NotationCode::N2, 1),
        (b"12m3", NotationCode::N3, 4),
        (b"7", NotationCode::N3, 1),
        (b"1mp", NotationCode::N4, 2),
        (b"z", NotationCode::N4, 0),
        (b"8z", NotationCode::N5, 0),
        (b"12m10z", NotationCode::N5, 4),
        (b"9z9", NotationCode::N5, 0),
        (b"11111m", NotationCode::N6, 4),
        (b"05555m", NotationCode::N6, 4),
        (b"1111m2m1m8z", NotationCode::N6, 7),
        (b"8z11111m", NotationCode::N5, 0),
    ];
    for &(text, code, place) in &ROWS {
        same(&rt, read_counts(text), Err(NotationFault { code, place }));
    }
}

#[test]
fn reads_into_empty_counts(rt: HostRuntime) {
    let (code, place) = (NotationCode::N5, 3);
    let mut none = Counts::new();
    same(
        &rt,
        read_into(&mut none, b"11m8z"),
        Err(NotationFault { code, place }),
    );
    same(&rt, none.total(), 0);
    let mut counts = Counts::new();
    holds(&rt, read_into(&mut counts, b"19m7z").is_ok());
    same(&rt, write_counts(&counts).as_str(), "19m7z");
}

#[test]
fn tells_which_kinds_are_held(rt: HostRuntime) {
    let counts = counts_of(&rt, b"119m7z");
    let held = KindSet::of(counts.as_array());
    same(&rt, (held.first_from(0), held.first_from(1)), (0, 8));
    same(&rt, (held.first_from(9), held.first_from(34)), (33, 34));
    let characters = KindSet::of_suit(Suit::Characters);
    let circles = KindSet::of_suit(Suit::Circles);
    let honours = KindSet::of_suit(Suit::Honours);
    same(&rt, (circles.first_from(0), circles.len()), (9, 9));
    same(&rt, (honours.first_from(0), honours.len()), (27, 7));
    holds(&rt, held.is_disjoint(circles) && !held.is_disjoint(honours));
    holds(&rt, characters.either(honours).is_superset(held));
    holds(&rt, !characters.is_superset(held));
}

#[test]
fn writes_what_it_reads(rt: HostRuntime) {
    static ROWS: [(&[u8], &str, u8); 6] = [
        (b"1112345678999m", "1112345678999m", 13),
        (b"123456789m1111z", "123456789m1111z", 13),
        (b"0s", "5s", 1),
        (b"7z19s40p", "45p19s7z", 5),
        (b"3m2m1m", "123m", 3),
        (b"1z2p3m4s4m4p", "34m24p4s1z", 6),
    ];
    for &(text, written, total) in &ROWS {
        let counts = counts_of(&rt, text);
        same(&rt, counts.total(), total);
        same(&rt, write_counts(&counts).as_str(), written);
        same(&rt, read_counts(written.as_bytes()), Ok(counts));
    }
    let none = Counts::new();
    same(&rt, write_counts(&none).as_str(), "");
    same(&rt, none.lowest(), None);
    same(&rt, counts_of(&rt, b"7z9p").lowest(), Some(Kind::at(17)));
    holds(
        &rt,
        is_digit(b'0') && is_digit(b'9') && !is_digit(b'/') && !is_digit(b':'),
    );
}

#[test]
fn counts_the_whole_wall(rt: HostRuntime) {
    let mut wall = Counts::new();
    let mut kinds = KindSet::new();
    holds(&rt, kinds.is_empty());
    for number in 0..34 {
        let kind = Kind::at(number);
        holds(&rt, !kinds.contains(kind));
        kinds.insert(kind);
        for _copy in 0..4 {
            if wall.get(kind) < 4 {
                wall.add(kind);
            }
        }
    }
    same(&rt, wall.total(), 136);
    same(&rt, write_counts(&wall).len(), 140);
    same(
        &rt,
        write_kinds(kinds).as_str(),
        "123456789m123456789p123456789s1234567z",
    );
    let red = Kind::at(33);
    if 0 < wall.get(red) {
        wall.remove(red);
    }
    same(&rt, wall.get(red), 3);
    same(&rt, Kind::new(33), Some(red));
    same(&rt, Kind::new(34), None);
    same(&rt, red.index(), 33);
}

/// The text is this meld.
fn reads(rt: &impl Abort, text: &[u8], meld: Meld) {
    same(rt, Meld::read(text), Some(meld));
}

#[test]
fn reads_melds(rt: HostRuntime) {
    reads(&rt, b"chi:123m", Meld::Chi(Kind::at(0)));
    reads(&rt, b"chi:340m", Meld::Chi(Kind::at(2)));
    reads(&rt, b"chi:534p", Meld::Chi(Kind::at(11)));
    reads(&rt, b"chi:987s", Meld::Chi(Kind::at(24)));
    reads(&rt, b"pon:1z1z1z", Meld::Pon(Kind::at(27)));
    reads(&rt, b"pon:055m", Meld::Pon(Kind::at(4)));
    reads(&rt, b"kan:7777z", Meld::Kan(Kind::at(33)));
    reads(&rt, b"ankan:11z11z", Meld::Ankan(Kind::at(27)));
}

#[test]
fn reads_no_melds(rt: HostRuntime) {
    for &text in &[
        "pon:112z",
        "chi:890m",
        "chi:89m1p",
        "chi:123z",
        "chi:12m",
        "chi:1234m",
        "pon:1111z",
        "kan:111z",
        "ankan:",
        "pon:111",
        "Pon:111z",
        "pon:111z ",
        "chi",
        "123m",
    ] {
        same(&rt, Meld::read(text.as_bytes()), None);
    }
}

#[test]
fn indicates_dora(rt: HostRuntime) {
    static ROWS: [(u8, u8); 13] = [
        (0, 1),
        (4, 5),
        (8, 0),
        (9, 10),
        (17, 9),
        (18, 19),
        (26, 18),
        (27, 28),
        (29, 30),
        (30, 27),
        (31, 32),
        (32, 33),
        (33, 31),
    ];
    for &(indicator, dora) in &ROWS {
        let kind = Kind::new(indicator).expect(&rt, "a kind");
        same(&rt, dora_of(kind).index(), usize::from(dora));
    }
}

#[test]
fn counts_red_fives(rt: HostRuntime) {
    static ROWS: [(&[u8], [u8; 3]); 6] = [
        (b"123406789m22s34p", [1, 0, 0]),
        (b"234m067m345p67s99s", [1, 0, 0]),
        (b"0055p0s", [0, 2, 1]),
        (b"chi:340m,pon:055p", [1, 1, 0]),
        (b"5m5p5s", [0, 0, 0]),
        (b"0", [0, 0, 0]),
    ];
    for &(text, [characters, circles, bamboos]) in &ROWS {
        same(
            &rt,
            Some(reds_of(text)),
            Reds::new(characters, circles, bamboos),
        );
    }
    same(&rt, Reds::new(5, 0, 0), None);
    same(&rt, Reds::new(0, 5, 0), None);
    same(&rt, Reds::new(0, 0, 5), None);
    let reds = Reds::new(4, 1, 2).expect(&rt, "at most four of each");
    let both = reds.joined(&reds_of(b"0p0s"));
    same(&rt, [both.get(0), both.get(1), both.get(2)], [4, 2, 3]);
    same(&rt, both.total(), 9);
    same(&rt, Reds::none().total(), 0);
}

#[test]
fn adds_melds_to_tiles(rt: HostRuntime) {
    let mut held = counts_of(&rt, b"3m1z").to_array();
    let mut melds = Melds::new();
    melds.push(Meld::Pon(Kind::at(27)));
    melds.push(Meld::Kan(Kind::at(5)));
    add_melds(&mut held, &melds);
    same(&rt, [held[2], held[5], held[27], held[28]], [1, 4, 4, 0]);
}

#[test]
fn adds_up_melds_and_blocks(rt: HostRuntime) {
    let mut melds = Melds::new();
    holds(&rt, melds.concealed());
    melds.push(Meld::Ankan(Kind::at(27)));
    holds(&rt, melds.concealed());
    holds(&rt, melds.has_kong());
    let run = Meld::Chi(Kind::at(2));
    holds(&rt, run.is_proper());
    holds(&rt, !Meld::Chi(Kind::at(7)).is_proper());
    if run.is_proper() && melds.count() < 4 {
        melds.push(run);
    }
    holds(&rt, !melds.concealed());
    same(&rt, melds.count(), 2);
    same(&rt, melds.get(1), Some(run));
    same(&rt, melds.get(2), None);
    same(&rt, melds.tiles(Kind::at(27)), 4);
    same(&rt, melds.tiles(Kind::at(4)), 1);
    same(&rt, melds.tiles(Kind::at(5)), 0);
    let tiles = meld_tiles(&melds);
    same(&rt, KindSet::of(&tiles).len(), 4);
    holds(
        &rt,
        tiles[27] == 4 && tiles[2] == 1 && tiles[3] == 1 && tiles[4] == 1,
    );
    holds(&rt, !run.is_kong());
    holds(&rt, run.is_open());

    let three = Kind::at(2);
    same(&rt, Block::Run(Kind::at(0)).tiles(three), 1);
    same(&rt, Block::Triplet(three).tiles(three), 3);
    same(&rt, Block::Pair(three).tiles(three), 2);
    holds(&rt, !Block::Pair(three).contains(Kind::at(3)));
}

/// Whether the kind of this number has this suit and rank, and is a terminal, an honour, the first of a run, or not.
fn is_named(number: u8, suit: Suit, rank: usize, [terminal, honour, begins]: [bool; 3]) -> bool {
    let Some(kind) = Kind::new(number) else {
        return false;
    };
    let place = kind.suit() == suit && kind.rank() == rank;
    let orphan = kind.is_orphan() == (terminal || honour);
    let natures = [kind.is_terminal(), kind.is_honour(), kind.begins_run()];
    place && orphan && natures == [terminal, honour, begins]
}

#[test]
fn names_each_kind(rt: HostRuntime) {
    static ROWS: [(u8, Suit, usize, [bool; 3]); 10] = [
        (0, Suit::Characters, 0, [true, false, true]),
        (6, Suit::Characters, 6, [false, false, true]),
        (7, Suit::Characters, 7, [false, false, false]),
        (8, Suit::Characters, 8, [true, false, false]),
        (9, Suit::Circles, 0, [true, false, true]),
        (17, Suit::Circles, 8, [true, false, false]),
        (18, Suit::Bamboos, 0, [true, false, true]),
        (26, Suit::Bamboos, 8, [true, false, false]),
        (27, Suit::Honours, 0, [false, true, false]),
        (33, Suit::Honours, 6, [false, true, false]),
    ];
    for &(number, suit, rank, natures) in &ROWS {
        holds(&rt, is_named(number, suit, rank, natures));
    }
}

/// The first kind of a suit, and whether the suit is one of the lower two.
fn begins(rt: &impl Abort, suit: Suit, first: usize, is_low: bool) {
    same(rt, (suit.first(), suit.is_low()), (first, is_low));
    let partner = suit.partner();
    same(rt, (partner.partner(), partner.is_low()), (suit, is_low));
    holds(rt, partner != suit);
}

#[test]
fn begins_each_suit(rt: HostRuntime) {
    begins(&rt, Suit::Characters, 0, true);
    begins(&rt, Suit::Circles, 9, true);
    begins(&rt, Suit::Bamboos, 18, false);
    begins(&rt, Suit::Honours, 27, false);
    let [first, second, third] = Suit::NUMBERED;
    same(
        &rt,
        [first.first(), second.first(), third.first()],
        [0, 9, 18],
    );
}

#[test]
fn has_something_for_each_suit(rt: HostRuntime) {
    let kinds = BySuit::of(|suit: Suit| suit.kinds());
    for suit in Suit::ALL {
        same(&rt, kinds.get(suit), suit.kinds());
        let changed = kinds.with(suit, 0);
        same(&rt, *changed.lent(suit), 0);
        for other in Suit::ALL {
            holds(&rt, other == suit || changed.get(other) == kinds.get(other));
        }
    }
    same(&rt, kinds.honours, 7);
    same(&rt, kinds.bamboos, 9);
    let numbers = BySuit {
        characters: 1,
        circles: 20,
        bamboos: 300,
        honours: 4000,
    };
    same(&rt, numbers.total(), 4321);
}
