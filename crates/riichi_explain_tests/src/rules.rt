use crate::explain::explains;
use riichi_hand::{Rules, Switch};
use std::process::Abort;

/// The changes of the first profile, a line, and what is said of it.
type Row = (&'static [(Switch, bool)], &'static str, &'static str);

fn with_changes(changes: &[(Switch, bool)]) -> Rules {
    let mut rules = Rules::One;
    for (switch, is_on) in changes {
        rules = rules.with(*switch, *is_on);
    }
    rules
}

fn explains_each(rt: &impl Abort, rows: &[Row]) {
    for (changes, line, text) in rows {
        let rules = with_changes(*changes);
        explains(rt, rules, &[(*line, *text)]);
    }
}

const DORA_AND_LIMITS: [Row; 6] = [
    (
        &[(Switch::RedFives, true)],
        "win 234m067m345p67s99s on=0s by=ron seat=S round=E",
        "  rules   1+red-fives
  reading 234m 567m 345p 567s 99s, 5s completes 567s
  han     pinfu 1, dora 2: 3
  dora    2: 2 red fives
  fu      20 base, 10 concealed ron (menzen kafu): 30
  base    30 x 2^5 = 960
  pays    discarder 3900
  gain    3900
",
    ),
    (
        &[(Switch::Raise, true)],
        "win 123456789m22s34p on=2p by=ron seat=S round=E dora=1p",
        "  rules   1+raise
  reading 123m 456m 789m 234p 22s, 2p completes 234p
  han     pinfu 1, pure-straight (ittsu) 2, dora 1: 4
  dora    1: 1 indicated
  fu      20 base, 10 concealed ron (menzen kafu): 30
  base    30 x 2^6 = 1920, raised to mangan 2000 (kiriage)
  pays    discarder 8000
  gain    8000
",
    ),
    (
        &[(Switch::CountedYakuman, false)],
        "win 2233445678999m on=1m by=ron seat=S round=E riichi=2 flags=ippatsu,last",
        "  rules   1-counted-yakuman
  note    riichi, and no indicator is said: dora= is missing
  reading 123m 234m 456m 789m 99m, 1m completes 123m
  han     double-riichi 2, ippatsu 1, pinfu 1, last-tile (haitei or houtei) 1, pure-straight (ittsu) 2, full-flush (chinitsu) 6: 13
  fu      20 base, 10 concealed ron (menzen kafu): 30
  base    13 han, sanbaiman 6000
  pays    discarder 24000
  gain    24000
",
    ),
    (
        &[(Switch::AddYakuman, true)],
        "win 111z222z33z444z99m on=3z by=tsumo seat=S round=E",
        "  rules   1+add-yakuman
  reading 111z 222z 333z 444z 99m, 3z completes 333z
  yakuman four-concealed-pungs (suuankou), big-four-winds (daisuushii)
  base    2 x yakuman 16000
  pays    dealer 32000, two others 16000 each
  gain    64000
",
    ),
    (
        &[(Switch::DoubleYakuman, true)],
        "win 1112345678999m on=5m by=ron seat=S round=E",
        "  rules   1+double-yakuman
  reading 111m 234m 678m 999m 55m, 5m completes 55m
  yakuman nine-gates (chuuren poutou)
  base    2 x yakuman 16000
  pays    discarder 64000
  gain    64000
",
    ),
    (
        &[(Switch::BlessingOfMan, true)],
        "win 234m567m345p67s99s on=5s by=ron seat=S round=E flags=first",
        "  rules   1+blessing-of-man
  reading 234m 567m 345p 567s 99s, 5s completes 567s
  yakuman blessing-of-man (renhou)
  base    yakuman 8000
  pays    discarder 32000
  gain    32000
",
    ),
];

#[test]
fn dora_and_limits_by_the_rules_of_a_house(rt: HostRuntime) {
    explains_each(&rt, &DORA_AND_LIMITS);
}

const FU_AND_YAKU: [Row; 6] = [
    (
        &[(Switch::DoubleWindPair, false)],
        "win 234m567m999p67s11z on=5s by=ron seat=E round=E riichi=1",
        "  rules   1-double-wind-pair
  note    riichi, and no indicator is said: dora= is missing
  reading 234m 567m 999p 567s 11z, 5s completes 567s
  han     riichi 1
  fu      20 base, 10 concealed ron (menzen kafu), 8 concealed triplet 999p (ankou), 2 pair of the seat wind 11z: 40
  base    40 x 2^3 = 320
  pays    discarder 2000
  gain    2000
",
    ),
    (
        &[(Switch::KongDrawFu, false)],
        "win 567m345p68s99s open=kan:2222m on=7s by=tsumo seat=S round=E flags=rinshan",
        "  rules   1-kong-draw-fu
  reading 567m 345p 678s 99s kan:2222m, 7s completes 678s
  han     after-a-kong (rinshan kaiho) 1
  fu      20 base, 8 open kong 2222m (minkan), 2 closed wait (kanchan): 30
  base    30 x 2^3 = 240
  pays    dealer 500, two others 300 each
  gain    1100
",
    ),
    (
        &[(Switch::OpenSimples, false)],
        "win 567m345p67s88s open=chi:234m on=5s by=tsumo seat=S round=E",
        "  rules   1-open-simples
  reading 567m 345p 567s 88s chi:234m, 5s completes 567s: no yaku
",
    ),
    (
        &[(Switch::OpenPinfuFu, false)],
        "win 567m345p67s88s open=chi:234m on=5s by=ron seat=S round=E",
        "  rules   1-open-pinfu-fu
  reading 567m 345p 567s 88s chi:234m, 5s completes 567s
  han     all-simples (tanyao) 1
  fu      20 base
  base    20 x 2^3 = 160
  pays    discarder 700
  gain    700
",
    ),
    (
        &[(Switch::Ippatsu, false)],
        "win 234m567m345p67s99s on=5s by=ron seat=S round=E riichi=1 flags=ippatsu",
        "  rules   1-ippatsu
  note    riichi, and no indicator is said: dora= is missing
  reading 234m 567m 345p 567s 99s, 5s completes 567s
  han     riichi 1, pinfu 1: 2
  fu      20 base, 10 concealed ron (menzen kafu): 30
  base    30 x 2^4 = 480
  pays    discarder 2000
  gain    2000
",
    ),
    (
        &[(Switch::Ura, false)],
        "win 234m567m345p67s99s on=5s by=ron seat=S round=E riichi=1 ura=1m",
        "  rules   1-ura
  note    riichi, and no indicator is said: dora= is missing
  reading 234m 567m 345p 567s 99s, 5s completes 567s
  han     riichi 1, pinfu 1: 2
  fu      20 base, 10 concealed ron (menzen kafu): 30
  base    30 x 2^4 = 480
  pays    discarder 2000
  gain    2000
",
    ),
];

#[test]
fn fu_and_yaku_by_the_rules_of_a_house(rt: HostRuntime) {
    explains_each(&rt, &FU_AND_YAKU);
}

/// The rules that are told, and where none are: those of a house that are a profile.
const TOLD: [Row; 4] = [
    (
        &[
            (Switch::RedFives, true),
            (Switch::Raise, true),
            (Switch::Ura, false),
        ],
        "win 123456789m22s34p on=9s by=ron seat=S round=E",
        "  rules   2-ura
  shanten sets and a pair 0, seven pairs 5, thirteen orphans 10
  waits   2p 4 left, two-sided (ryanmen); 5p 4 left, two-sided (ryanmen)
",
    ),
    (
        &[
            (Switch::Ura, false),
            (Switch::RedFives, true),
            (Switch::OpenPinfuFu, false),
        ],
        "win 406m22s34p open=chi:123m,chi:678p on=2p by=ron seat=S round=E",
        "  rules   1+red-fives-open-pinfu-fu-ura
  reading 456m 234p 22s chi:123m chi:678p, 2p completes 234p: no yaku
",
    ),
    (
        &[],
        "win 406m22s34p open=chi:123m,chi:678p on=2p by=ron seat=S round=E",
        "  reading 456m 234p 22s chi:123m chi:678p, 2p completes 234p: no yaku
",
    ),
    (
        &[(Switch::Raise, true), (Switch::RedFives, true)],
        "win 406m22s34p open=chi:123m,chi:678p on=2p by=ron seat=S round=E",
        "  reading 456m 234p 22s chi:123m chi:678p, 2p completes 234p: no yaku
",
    ),
];

#[test]
fn rules_that_are_told(rt: HostRuntime) {
    explains_each(&rt, &TOLD);
}
