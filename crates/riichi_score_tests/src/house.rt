//! Wins under rules of a house: each rule with others, worked by hand.
use crate::score::answers;
use riichi_hand::{Rules, Switch};
use std::process::Abort;

/// The first profile with these rules turned.
fn turned(switches: &[Switch]) -> Rules {
    let mut rules = Rules::One;
    for switch in switches {
        rules = rules.with(*switch, !rules.has(*switch));
    }
    rules
}

/// One win under the first profile with none, the first, the second and both of two rules turned.
fn turns(
    rt: &impl Abort,
    [first, second]: [Switch; 2],
    line: &str,
    [none, one, other, both]: [&str; 4],
) {
    answers(rt, Rules::One, &[(line, none)]);
    answers(rt, turned(&[first]), &[(line, one)]);
    answers(rt, turned(&[second]), &[(line, other)]);
    answers(rt, turned(&[first, second]), &[(line, both)]);
}

/// Pinfu and a straight, with a red five: 30 fu, three han or four.
#[test]
fn red_fives_and_raise(rt: HostRuntime) {
    turns(
        &rt,
        [Switch::RedFives, Switch::Raise],
        "win 123406789m22s34p on=2p by=ron seat=S round=E",
        [
            "won 3 han 30 fu 3900 gain 3900 pinfu pure-straight",
            "won 4 han 30 fu 7700 gain 7700 pinfu pure-straight dora 1",
            "won 3 han 30 fu 3900 gain 3900 pinfu pure-straight",
            "won 4 han 30 fu 8000 gain 8000 pinfu pure-straight dora 1",
        ],
    );
}

/// Four concealed pungs completed in the pair, and big four winds: a limit each, or two each.
#[test]
fn add_yakuman_and_double_yakuman(rt: HostRuntime) {
    turns(
        &rt,
        [Switch::AddYakuman, Switch::DoubleYakuman],
        "win 111z222z333z444z9m on=9m by=ron seat=S round=E",
        [
            "won yakuman 32000 gain 32000 four-concealed-pungs big-four-winds",
            "won yakuman 64000 gain 64000 four-concealed-pungs big-four-winds",
            "won yakuman 64000 gain 64000 four-concealed-pungs big-four-winds",
            "won yakuman 128000 gain 128000 four-concealed-pungs big-four-winds",
        ],
    );
}

/// Nine gates on nine waits is one yakuman, so that there is nothing to add.
#[test]
fn nothing_to_add(rt: HostRuntime) {
    turns(
        &rt,
        [Switch::AddYakuman, Switch::DoubleYakuman],
        "win 1112345678999m on=5m by=tsumo seat=S round=E",
        [
            "won yakuman 8000/16000 gain 32000 nine-gates",
            "won yakuman 8000/16000 gain 32000 nine-gates",
            "won yakuman 16000/32000 gain 64000 nine-gates",
            "won yakuman 16000/32000 gain 64000 nine-gates",
        ],
    );
}

/// Twelve han of yaku, and 2m twice below: 1 + 1 + 1 + 3 + 6, with 2.
#[test]
fn counted_yakuman_and_ura(rt: HostRuntime) {
    turns(
        &rt,
        [Switch::CountedYakuman, Switch::Ura],
        "win 223344m556677m8m on=8m by=ron seat=S round=E riichi=1 ura=1m",
        [
            "won 14 han 30 fu 32000 gain 32000 riichi pinfu all-simples twice-pure-double-chow full-flush dora 2",
            "won 14 han 30 fu 24000 gain 24000 riichi pinfu all-simples twice-pure-double-chow full-flush dora 2",
            "won 12 han 30 fu 24000 gain 24000 riichi pinfu all-simples twice-pure-double-chow full-flush",
            "won 12 han 30 fu 24000 gain 24000 riichi pinfu all-simples twice-pure-double-chow full-flush",
        ],
    );
}

/// The same yaku with a red five, which is the thirteenth han.
#[test]
fn counted_yakuman_and_red_fives(rt: HostRuntime) {
    turns(
        &rt,
        [Switch::CountedYakuman, Switch::RedFives],
        "win 223344m506677m8m on=8m by=ron seat=S round=E riichi=1",
        [
            "won 12 han 30 fu 24000 gain 24000 riichi pinfu all-simples twice-pure-double-chow full-flush",
            "won 12 han 30 fu 24000 gain 24000 riichi pinfu all-simples twice-pure-double-chow full-flush",
            "won 13 han 30 fu 32000 gain 32000 riichi pinfu all-simples twice-pure-double-chow full-flush dora 1",
            "won 13 han 30 fu 24000 gain 24000 riichi pinfu all-simples twice-pure-double-chow full-flush dora 1",
        ],
    );
}

/// 46 fu with the 16 of the kong, the 8 of 999p and the 2 of the closed wait, 4 or 2 for the pair, 2 or none for the draw.
#[test]
fn double_wind_pair_and_kong_draw_fu(rt: HostRuntime) {
    turns(
        &rt,
        [Switch::DoubleWindPair, Switch::KongDrawFu],
        "win 345999p68s11z open=ankan:2222m on=7s by=tsumo seat=E round=E riichi=1 flags=rinshan",
        [
            "won 3 han 60 fu 3900 all gain 11700 riichi fully-concealed after-a-kong",
            "won 3 han 50 fu 3200 all gain 9600 riichi fully-concealed after-a-kong",
            "won 3 han 50 fu 3200 all gain 9600 riichi fully-concealed after-a-kong",
            "won 3 han 50 fu 3200 all gain 9600 riichi fully-concealed after-a-kong",
        ],
    );
}

/// The same hand: only its 60 fu are raised.
#[test]
fn raise_and_kong_draw_fu(rt: HostRuntime) {
    turns(
        &rt,
        [Switch::Raise, Switch::KongDrawFu],
        "win 345999p68s11z open=ankan:2222m on=7s by=tsumo seat=E round=E riichi=1 flags=rinshan",
        [
            "won 3 han 60 fu 3900 all gain 11700 riichi fully-concealed after-a-kong",
            "won 3 han 60 fu 4000 all gain 12000 riichi fully-concealed after-a-kong",
            "won 3 han 50 fu 3200 all gain 9600 riichi fully-concealed after-a-kong",
            "won 3 han 50 fu 3200 all gain 9600 riichi fully-concealed after-a-kong",
        ],
    );
}

/// 38 fu with those of the kong and of the wait, 4 or 2 for the pair, 2 or none for the draw: 44, 42, 42 and 40.
#[test]
fn both_off_lower_the_fu(rt: HostRuntime) {
    turns(
        &rt,
        [Switch::DoubleWindPair, Switch::KongDrawFu],
        "win 567m345p68s11z open=ankan:2222m on=7s by=tsumo seat=E round=E flags=rinshan",
        [
            "won 2 han 50 fu 1600 all gain 4800 fully-concealed after-a-kong",
            "won 2 han 50 fu 1600 all gain 4800 fully-concealed after-a-kong",
            "won 2 han 50 fu 1600 all gain 4800 fully-concealed after-a-kong",
            "won 2 han 40 fu 1300 all gain 3900 fully-concealed after-a-kong",
        ],
    );
}

/// An open hand of simples on the last discard, whose sum is 20 fu.
#[test]
fn open_simples_and_open_pinfu_fu(rt: HostRuntime) {
    turns(
        &rt,
        [Switch::OpenSimples, Switch::OpenPinfuFu],
        "win 567m345p67s88s open=chi:234m on=5s by=ron seat=S round=E flags=last",
        [
            "won 2 han 30 fu 2000 gain 2000 all-simples last-tile",
            "won 1 han 30 fu 1000 gain 1000 last-tile",
            "won 2 han 20 fu 1300 gain 1300 all-simples last-tile",
            "won 1 han 20 fu 700 gain 700 last-tile",
        ],
    );
}

/// A red five is no yaku, so that an open hand needs its simples.
#[test]
fn open_simples_and_red_fives(rt: HostRuntime) {
    turns(
        &rt,
        [Switch::OpenSimples, Switch::RedFives],
        "win 567m340p67s88s open=chi:234m on=5s by=ron seat=S round=E",
        [
            "won 1 han 30 fu 1000 gain 1000 all-simples",
            "no yaku",
            "won 2 han 30 fu 2000 gain 2000 all-simples dora 1",
            "no yaku",
        ],
    );
}

/// Riichi and pinfu, won within one turn, with 2m below.
#[test]
fn ippatsu_and_ura(rt: HostRuntime) {
    turns(
        &rt,
        [Switch::Ippatsu, Switch::Ura],
        "win 234m567m345p67s99s on=5s by=ron seat=S round=E riichi=1 flags=ippatsu ura=1m",
        [
            "won 4 han 30 fu 7700 gain 7700 riichi ippatsu pinfu dora 1",
            "won 3 han 30 fu 3900 gain 3900 riichi pinfu dora 1",
            "won 3 han 30 fu 3900 gain 3900 riichi ippatsu pinfu",
            "won 2 han 30 fu 2000 gain 2000 riichi pinfu",
        ],
    );
}

/// The same hand: only its four han are raised.
#[test]
fn raise_and_ippatsu(rt: HostRuntime) {
    turns(
        &rt,
        [Switch::Raise, Switch::Ippatsu],
        "win 234m567m345p67s99s on=5s by=ron seat=S round=E riichi=1 flags=ippatsu ura=1m",
        [
            "won 4 han 30 fu 7700 gain 7700 riichi ippatsu pinfu dora 1",
            "won 4 han 30 fu 8000 gain 8000 riichi ippatsu pinfu dora 1",
            "won 3 han 30 fu 3900 gain 3900 riichi pinfu dora 1",
            "won 3 han 30 fu 3900 gain 3900 riichi pinfu dora 1",
        ],
    );
}

/// Thirteen orphans by ron before the own first draw: a limit each. By the first profile no record has that.
#[test]
fn add_yakuman_and_blessing_of_man(rt: HostRuntime) {
    turns(
        &rt,
        [Switch::AddYakuman, Switch::BlessingOfMan],
        "win 19m19p19s1234567z on=1m by=ron seat=S round=E flags=first",
        [
            "refused H15",
            "refused H15",
            "won yakuman 32000 gain 32000 thirteen-orphans blessing-of-man",
            "won yakuman 64000 gain 64000 thirteen-orphans blessing-of-man",
        ],
    );
}

/// Beside a yakuman a red five counts nothing.
#[test]
fn red_fives_and_blessing_of_man(rt: HostRuntime) {
    turns(
        &rt,
        [Switch::RedFives, Switch::BlessingOfMan],
        "win 234m067m345p67s99s on=0s by=ron seat=W round=E flags=first",
        [
            "refused H15",
            "refused H15",
            "won yakuman 32000 gain 32000 blessing-of-man",
            "won yakuman 32000 gain 32000 blessing-of-man",
        ],
    );
}
