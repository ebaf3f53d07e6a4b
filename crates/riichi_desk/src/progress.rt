//! How far the program is, shown on a terminal.
use desk_io::Reached;
use memchr::memchr_iter;
use std::cell::Cell;
use std::fmt::{self, Display};
use std::io::Eprint;
use std::time::{Clock, Instant};

/// For so many thousandths of a second nothing is shown.
const SILENCE: u64 = 1000;

/// So many thousandths of a second lie between two lines at least.
const PAUSE: u64 = 200;

/// Which of the streams are terminals.
#[derive(Clone, Copy)]
pub struct Terminals {
    pub has_output: bool,
    pub has_errors: bool,
}

/// How far a search is, in hundredths of the longest.
#[derive(Drop)]
struct Searched(u32);

impl Display for Searched {
    /// As `35 % of the search`.
    fn fmt<W: fmt::Write>(&self, f: &mut fmt::Formatter<W>) -> fmt::Result {
        let hundredths = self.0;
        write!(f, "{hundredths} % of the search")
    }
}

/// What was done since when. Times are thousandths of a second since the start.
#[derive(Clone, Copy)]
struct Course {
    start: Instant,
    /// What was read, and what there is to be read, where that is known.
    lines: u64,
    bytes: u64,
    whole: Option<u64>,
    /// When a line may be shown next.
    next: u64,
    is_shown: bool,
}

/// Shows on standard error how far the answers are, if it does: a line that is drawn in place, from the first second on, and
/// not oftener than five times a second.
#[derive(Drop)]
pub struct Progress<'r, R> {
    rt: &'r R,
    course: Cell<Option<Course>>,
}

impl<'r, R: Eprint + Clock> Progress<'r, R> {
    /// Shows nothing.
    pub fn none(rt: &'r R) -> Progress<'r, R> {
        Progress {
            rt,
            course: Cell::new(None),
        }
    }

    /// Shows how far the answers are, from now on, where so many bytes are to be read, if that is known. Without a clock it
    /// shows nothing.
    pub fn begin(rt: &'r R, whole: Option<u64>) -> Progress<'r, R> {
        let course = match Instant::now(rt) {
            Ok(start) => Some(Course {
                start,
                lines: 0,
                bytes: 0,
                whole,
                next: SILENCE,
                is_shown: false,
            }),
            Err(_) => None,
        };
        Progress {
            rt,
            course: Cell::new(course),
        }
    }

    /// These bytes were read.
    pub fn read(&self, bytes: &[u8]) {
        if let Some(mut course) = self.course.get() {
            let lines = memchr_iter(b'\n', bytes).count();
            course.bytes = course.bytes.saturating_add(bytes.len() as u64);
            course.lines = course.lines.saturating_add(lines as u64);
            let millis = course.millis(self.rt);
            self.show(course, millis, course.read_in(millis));
        }
    }

    /// So many hundredths of a search are done.
    pub fn searched(&self, hundredths: u32) {
        if let Some(course) = self.course.get() {
            let millis = course.millis(self.rt);
            self.show(course, millis, Searched(hundredths));
        }
    }

    /// Shows what is reached by now, where it is time for it.
    fn show<T: Display + Drop>(&self, mut course: Course, millis: u64, reached: T) {
        if millis >= course.next {
            course.next = millis.saturating_add(PAUSE);
            course.is_shown = true;
            let _ = eprint!(self.rt; "\r{reached}\x1b[K");
        }
        self.course.set(Some(course));
    }

    /// Wipes the line, so that something else can be written there.
    pub fn wipe(&self) {
        if let Some(mut course) = self.course.get() {
            if course.is_shown {
                course.is_shown = false;
                self.course.set(Some(course));
                let _ = eprint!(self.rt; "\r\x1b[K");
            }
        }
    }

    /// What writes to standard error, where the line is wiped.
    pub fn wiped(&self) -> &R {
        self.wipe();
        self.rt
    }
}

impl Course {
    /// Now. Where the clock can't be read no time has passed.
    fn millis(&self, clock: &impl Clock) -> u64 {
        match self.start.elapsed(clock) {
            Ok(time) => u64::try_from(time.as_millis()).unwrap_or(u64::MAX),
            Err(_) => 0,
        }
    }

    fn read_in(&self, millis: u64) -> Reached {
        Reached {
            lines: self.lines,
            millis,
            done: self.bytes,
            whole: self.whole,
        }
    }
}
