//! The ring by whose shifts nobody meets twice.
ghost use Rattle.std.specs.Prelude.{◌<◌, ◌≤◌};

/// So many numbers from 0 on, as a product of three parts: a field of a power of two, a field of a power of three, and the
/// remainders by a number that neither divides. A field of two or of three numbers has too few of them, and isn't shifted.
#[derive(Clone, Copy)]
pub(crate) struct Ring {
    twos: u16,
    threes: u16,
    others: u16,
    ghost some_twos: { 0 < twos },
    ghost some_threes: { 0 < threes },
    ghost some_others: { 0 < others },
}

impl Ring {
    /// The ring of so many numbers.
    pub(crate) fn new(size: u16) -> Ring {
        let twos = power_in(size, 2);
        let threes = power_in(size, 3);
        Ring {
            twos,
            threes,
            others: (size / twos / threes).max(1),
        }
    }

    /// How many shifts there are so that no two of them agree for numbers of two groups.
    pub(crate) fn shifts(&self) -> u16 {
        let twos = if self.twos == 2 { 1 } else { self.twos };
        let threes = if self.threes == 3 { 1 } else { self.threes };
        twos.saturating_mul(threes).saturating_mul(self.others)
    }

    /// A number of a group from 0 to 3, shifted. The groups are shifted by 0, by the shift itself, and by two products of it, whose
    /// factors differ so that each difference can be divided by.
    pub(crate) fn shifted(&self, number: u16, group: u16, shift: u16) -> u16
        requires group { group < 4 }
    {
        let (low, mid, high) = self.parts(number);
        let (by_low, by_mid, by_high) = self.shift_parts(shift);
        let low = self.shifted_twos(low, group, by_low);
        let mid = self.shifted_threes(mid, group, by_mid);
        let high = shifted_others(high, group, by_high, self.others);
        let upper = high.saturating_mul(self.threes).saturating_add(mid);
        upper.saturating_mul(self.twos).saturating_add(low)
    }

    fn parts(&self, number: u16) -> (u16, u16, u16) {
        let upper = number / self.twos;
        (
            number % self.twos,
            upper % self.threes,
            upper / self.threes % self.others,
        )
    }

    /// The parts of a shift, which leaves the parts that aren't shifted as they are.
    fn shift_parts(&self, shift: u16) -> (u16, u16, u16) {
        let twos = if self.twos == 2 { 1 } else { self.twos };
        let threes = if self.threes == 3 { 1 } else { self.threes };
        let ring = Ring {
            twos,
            threes,
            others: self.others,
        };
        ring.parts(shift)
    }

    /// In the field of a power of two: by 0, by the shift, by its product with the root, and by the sum of these two.
    fn shifted_twos(&self, number: u16, group: u16, shift: u16) -> u16 {
        let product = times_root_of_twos(shift, self.twos);
        match group {
            0 => number,
            1 => number ^ shift,
            2 => number ^ product,
            _ => number ^ shift ^ product,
        }
    }

    /// The same in the field of a power of three.
    fn shifted_threes(&self, number: u16, group: u16, shift: u16) -> u16 {
        let product = times_root_of_threes(shift, self.threes);
        match group {
            0 => number,
            1 => sum_of_threes(number, shift),
            2 => sum_of_threes(number, product),
            _ => sum_of_threes(sum_of_threes(number, shift), product),
        }
    }
}

/// By 0, by the shift, twice and three times.
fn shifted_others(number: u16, group: u16, shift: u16, others: u16) -> u16
    requires group { group < 4 }
    requires others { 0 < others }
{
    let sum = u32::from(number) + u32::from(group) * u32::from(shift);
    (sum % u32::from(others)) as u16
}

/// The greatest power of a prime that divides a number.
fn power_in(number: u16, prime: u16) -> u16
    requires { 1 < prime }
    ensures { 0 < result }
{
    let mut power: u16 = 1;
    for _ in 0..10 {
        let next = power.saturating_mul(prime).max(1);
        if number % next == 0 {
            power = next;
        }
    }
    power.max(1)
}

/// The product with the root of the polynomial of the field. A number's binary digits are the coefficients.
fn times_root_of_twos(number: u16, size: u16) -> u16 {
    let polynomial = match size {
        4 => 7,
        8 => 11,
        16 => 19,
        32 => 37,
        _ => 67,
    };
    let product = number.saturating_mul(2);
    if product < size {
        product
    } else {
        product ^ polynomial
    }
}

/// The same in a field of a power of three, where a number's digits to the base of three are the coefficients. The product with the
/// power of the greatest coefficient is what stands here.
fn times_root_of_threes(number: u16, size: u16) -> u16 {
    let (top, remainder) = match size {
        9 => (3, 2),
        27 => (9, 5),
        _ => (27, 7),
    };
    let product = (number % top).saturating_mul(3);
    match number / top {
        0 => product,
        1 => sum_of_threes(product, remainder),
        _ => sum_of_threes(sum_of_threes(product, remainder), remainder),
    }
}

/// The sum digit by digit to the base of three, without carrying, of numbers of four digits.
fn sum_of_threes(one: u16, other: u16) -> u16 {
    let digit = |unit: u16| (one / unit % 3 + other / unit % 3) % 3;
    digit(1) + 3 * digit(3) + 9 * digit(9) + 27 * digit(27)
}
