//! A game of letters, as a hall sees it.
ghost use Rattle.std.specs.Prelude.{◌≡◌};
ghost use Rattle.desk_hall_tests.specs.Letters as spec;

use desk_hall::Position;

/// The letter that was said last. A line says its first byte, which has to be another one than the last.
#[derive(Clone, Copy)]
pub(crate) struct Letter {
    pub(crate) said: u8,
}

impl Position for Letter {
    ghost use Rattle.std.proofs.Common.{refl};
    ghost use Rattle.std.proofs.lemmas.Bool.{eq-eqb};
    ghost use Rattle.std.specs.Prelude.{◌==◌};
    ghost use Rattle.desk_hall_tests.specs.Letters.{letter_after};

    ghost reads = { λ last line. letter_after last line };

    ghost same = { λ one other. one.said == other.said };

    fn read(&self, line: &[u8]) -> Option<Letter> {
        match line {
            [] => None,
            [first, ..] if *first == self.said => None,
            [first, ..] => Some(Letter { said: *first }),
        }
    }

    fn is_same(&self, other: &Letter) -> bool {
        self.said == other.said
    }

    ghost itself = { λ position. eq-eqb position.said position.said refl };
}
