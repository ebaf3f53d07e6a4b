//! Sums of four numbers.
ghost use Rattle.std.specs.Prelude.{◌≡◌, ◌+ℤ◌, ◌≤ℤ◌, pos, negsuc};

pub(crate) fn sum_of_four(one: i32, two: i32, three: i32, four: i32) -> i64
    ensures value { result ≡ one +ℤ two +ℤ three +ℤ four }
    ensures least { negsuc 99999999999 ≤ℤ result }
    ensures most { result ≤ℤ pos 99999999999 }
{
    plus(plus(plus(i64::from(one), two), three), four)
}

/// One number more, of sums that stay far from any limit.
fn plus(sum: i64, number: i32) -> i64
    requires least { negsuc 9999999999 ≤ℤ sum }
    requires most { sum ≤ℤ pos 9999999999 }
    ensures value { result ≡ sum +ℤ number }
    ensures least { (sum +ℤ negsuc 2147483647) ≤ℤ result }
    ensures most { result ≤ℤ (sum +ℤ pos 2147483647) }
{
    sum + i64::from(number)
}
