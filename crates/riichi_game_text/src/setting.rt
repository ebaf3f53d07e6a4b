//! The words of the rules of a table.
ghost use Rattle.std.specs.Prelude.{◌≡◌};
ghost use Rattle.riichi_game_text.specs.Settings.{setting_named};

/// The words of the rules of a table.
#[derive(Clone, Copy)]
pub(crate) enum Setting {
    Table,
    Rules,
    Start,
    Return,
    Uma,
    Ties,
    Ron,
    Counters,
    Sticks,
    Liable,
    Nagashi,
    Renchan,
    Length,
    Extra,
    Bust,
    Stop,
    Left,
    Chombo,
    Session,
    At,
}

impl Setting {
    pub(crate) fn read(word: &[u8]) -> Option<Setting>
        ensures { result ≡ setting_named word.now }
    {
        match word {
            b"table" => Some(Setting::Table),
            b"rules" => Some(Setting::Rules),
            b"start" => Some(Setting::Start),
            b"return" => Some(Setting::Return),
            b"uma" => Some(Setting::Uma),
            b"ties" => Some(Setting::Ties),
            b"ron" => Some(Setting::Ron),
            b"counters" => Some(Setting::Counters),
            b"sticks" => Some(Setting::Sticks),
            b"liable" => Some(Setting::Liable),
            b"nagashi" => Some(Setting::Nagashi),
            b"renchan" => Some(Setting::Renchan),
            b"length" => Some(Setting::Length),
            b"extra" => Some(Setting::Extra),
            b"bust" => Some(Setting::Bust),
            b"stop" => Some(Setting::Stop),
            b"left" => Some(Setting::Left),
            b"chombo" => Some(Setting::Chombo),
            b"session" => Some(Setting::Session),
            b"at" => Some(Setting::At),
            _ => None,
        }
    }
}
