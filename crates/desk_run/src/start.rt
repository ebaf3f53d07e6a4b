ghost use Rattle.std.specs.Prelude.{◌≡◌, ℕ, Bool, true, false};
ghost use Rattle.desk_run.specs.Started.{MayStart, IsStartRefused};

/// What is asked before a worker is started.
pub trait Start {
    /// What one question makes of the starter: the starter before, the number of the worker, the
    /// answer, the starter after.
    ghost asked: { Self → ℕ → Bool → Self → Type 0 } = { λ before worker answer after. Unit {0} };

    /// Whether the worker of this number, counted from 0, may be started.
    fn start(&mut self, worker: u32) -> bool
        ensures { asked self.old worker result self.new };
}

/// Starts every worker.
#[derive(Clone, Copy, Drop)]
pub(crate) struct Always;

impl Start for Always {
    ghost asked = { λ before worker answer after. (answer ≡ true) × (after ≡ before) };

    fn start(&mut self, _worker: u32) -> bool {
        true
    }
}

/// Asks for so many workers, in order from 0, until one may not be started. Answers whether each may.
pub(crate) fn ask_all<S: Start>(start: &mut S, workers: u32) -> bool
    ensures started { result ≡ true → MayStart S.asked workers start.old start.new }
    ensures refused { result ≡ false → IsStartRefused S.asked workers start.old start.new }
{
    for worker in 0..workers {
        if !start.start(worker) {
            return false;
        }
    }
    true
}
