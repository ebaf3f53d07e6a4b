//! How far answers are, as a terminal shows it.
ghost use Rattle.std.specs.Prelude.{◌≡◌};
ghost use Rattle.desk_io.specs.Reached.{share_of, rate_of, left_of, held_of};

use std::fmt;

/// How far answers are: the lines that are done, in how many thousandths of a second, and how much of the whole that is, where
/// it is known.
#[derive(Clone, Copy)]
pub struct Reached {
    pub lines: u64,
    pub millis: u64,
    pub done: u64,
    pub whole: Option<u64>,
}

/// The hundredth parts of a whole that are done, rounded down.
pub fn share_done(done: u64, whole: u64) -> u8
    ensures { result ≡ share_of done whole }
{
    if whole == 0 {
        return 100;
    }
    (u128::from(done) * 100 / u128::from(whole)).min(100) as u8
}

/// So many lines in so many thousandths of a second, as lines a second.
pub fn lines_a_second(lines: u64, millis: u64) -> u64
    ensures { result ≡ rate_of lines millis }
{
    if millis == 0 {
        return 0;
    }
    held(u128::from(lines) * 1000 / u128::from(millis))
}

/// The seconds that the rest of a whole takes, where it goes on as it went for so many thousandths of a second.
pub fn seconds_left(done: u64, whole: u64, millis: u64) -> Option<u64>
    ensures { result ≡ left_of done whole millis }
{
    if done == 0 {
        return None;
    }
    let rest = u128::from(whole.saturating_sub(done));
    Some(held(u128::from(millis) * rest / (u128::from(done) * 1000)))
}

/// The number, or the greatest of 64 bits.
fn held(number: u128) -> u64
    ensures { result ≡ held_of number }
{
    number.min(u128::from(u64::MAX)) as u64
}

impl fmt::Display for Reached {
    ghost use Rattle.std.specs.Prelude.{Some};
    ghost use Rattle.desk_io.specs.Reached.{reached_text};

    ghost output = { λ reached. Some (reached_text reached) };

    /// As `35 %, 400000 lines a second, 2 min 5 s left`, or, where the whole isn't known, as
    /// `1200000 lines, 400000 lines a second`.
    fn fmt<W: fmt::Write>(&self, f: &mut fmt::Formatter<W>) -> fmt::Result {
        let rate = lines_a_second(self.lines, self.millis);
        match self.whole {
            Some(whole) => {
                let share = share_done(self.done, whole);
                let left = Left(seconds_left(self.done, whole, self.millis));
                write!(f, "{share} %, {rate} lines a second{left}")
            }
            None => {
                let lines = self.lines;
                write!(f, "{lines} lines, {rate} lines a second")
            }
        }
    }
}

/// How many seconds are left, where that is known: from a minute on, in minutes too.
#[derive(Drop)]
struct Left(Option<u64>);

impl fmt::Display for Left {
    ghost use Rattle.std.specs.Prelude.{Some};
    ghost use Rattle.desk_io.specs.Reached.{left_text};

    ghost output = { λ left. Some (left_text left.0) };

    fn fmt<W: fmt::Write>(&self, f: &mut fmt::Formatter<W>) -> fmt::Result {
        match self.0 {
            None => Ok(()),
            Some(seconds) if seconds < 60 => write!(f, ", {seconds} s left"),
            Some(seconds) => {
                let (minutes, seconds) = (seconds / 60, seconds % 60);
                write!(f, ", {minutes} min {seconds} s left")
            }
        }
    }
}
