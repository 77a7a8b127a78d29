// The chains of the own power, eight side by side: each next number is the whole root of (last * 2^31). Number j of a chain is from 2^31
// up and less than 2^(31 - j) beyond it, so the first digits of the root that follows are known: a 1, and j + 1 zeros.
ghost use Rattle.std.specs.Prelude.{◌≡◌, ◌+◌, ◌*◌, ◌^◌, ◌<◌, ◌≤◌};
ghost use Rattle.bands.specs.Root.{whole_root};
ghost use Rattle.bands.specs.Eights.{Near, Nearly, Less, Next};

use crate::lanes::{Eight, digit, digits_eight};
use std::array;

// The roots that follow number j of eight chains, but for their last three digits. Those that come down are the digits of last,
// without its first, and zeros behind them.
fn begun(last: [u32; 8], j: usize) -> Eight
    requires { (j < 15) × Near j last }
    ensures { Nearly last result.root result.rem }
{
    let s = 30 - (j << 1);
    let rem = last.map(|r| (r << 1) >> s);
    let left = last.map(|r| (r << 1) << (32 - s));
    digits_eight([2 << j; 8], rem, left, 27 - j)
}

// a, or a less r where the digit d is 1.
fn less(a: u32, d: u32, r: u32) -> u32
    requires { 0 < d → r ≤ a }
    ensures { Less result a d r }
{
    if d == 0 { a } else { a - r }
}

// The root of 64 times a number whose root is r, with m beyond its square: three digits more. What is beyond the square would need more
// than 32 digits if it were brought down, so it is only doubled, and what the squares of the digits take from it is left to the compares.
fn last_three(r: u32, m: u32) -> u32
    requires { (r < 2 ^ 29) × (m ≤ 2 * r) }
    ensures { result ≡ whole_root ((m + r * r) * 64) }
{
    let x = digit(r, m);
    let a = less(m, x, r) << 1;
    let y = digit(r, a - x);
    let b = less(a, y, r) << 1;
    let z = digit(r, less(b, x, (y << 1) | 1));
    (((((r << 1) | x) << 1) | y) << 1) | z
}

// The next of eight chains, by the digits of the roots.
fn by_digits(last: [u32; 8], j: usize) -> [u32; 8]
    requires { (j < 15) × Near j last }
    ensures { Next last result }
{
    let most = begun(last, j);
    array::from_fn(|i| last_three(most.root[i], most.rem[i]))
}

// The next number of a chain near its end: of 2^31 + k, k below 2^16, it is 2^31 + (k - 1) / 2, downward.
fn half(last: u32) -> u32
    requires { (2 ^ 31 ≤ last) × (last < 2 ^ 31 + 2 ^ 16) }
    ensures { result ≡ whole_root (last * 2 ^ 31) }
{
    let k = last - 2147483648;
    if k > 0 {
        ((k - 1) >> 1) | 2147483648
    } else {
        last
    }
}

// The next of eight chains near their ends.
fn by_halves(last: [u32; 8]) -> [u32; 8]
    requires { Near 15 last }
    ensures { Next last result }
{
    last.map(half)
}

// The numbers that follow number j of eight chains.
pub(crate) fn next_eight(last: [u32; 8], j: usize) -> [u32; 8]
    requires { Near j last }
    ensures { Next last result }
{
    if j < 15 {
        by_digits(last, j)
    } else {
        by_halves(last)
    }
}
