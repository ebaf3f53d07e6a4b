//! What a hall knows of a game.
ghost use Rattle.std.specs.Prelude.{◌≡◌, ℕ, List, Bool, true, Option};

/// How far a game has come, and by what outcome.
pub trait Position: Copy {
    /// How far a line brings a game; nothing where the game refuses the line.
    ghost reads: { Self → List ℕ → Option Self };

    /// Two lines that brought one game so far said the same outcome.
    ghost same: { Self → Self → Bool };

    /// How far a line brings the game, which says an outcome; none where the game refuses the line.
    fn read(&self, line: &[u8]) -> Option<Self>
        ensures { result ≡ reads self.now line.now };

    /// Whether two lines that brought one game so far said the same outcome.
    fn is_same(&self, other: &Self) -> bool
        ensures { result ≡ same self.now other.now };

    /// A line says the same outcome as itself.
    ghost itself: { (position : Self) → same position position ≡ true };
}
