// Whole roots, rounded roots and powers, by bit patterns, each with what it is of.
ghost use Rattle.std.specs.Prelude.{◌^◌, ◌<◌};

use crate::{bits, end_line, word};
use std::io;
use std::io::Write;

// The next number of a row that both sides make.
fn next(x: u64) -> u64
    requires { x < 2 ^ 32 }
    ensures { result < 2 ^ 32 }
{
    (x * 1664525 + 1013904223) % 4294967296
}

// P(q, n / 2^32) for the q with the bits b, up to the infinity's.
fn power_line<W: Write>(to: &mut W, b: u32, n: u32) -> io::Result<()> {
    if b > 2139095040 {
        return Ok(());
    }
    to.write_all(b"power")?;
    word(to, u64::from(b))?;
    word(to, u64::from(n))?;
    word(to, bits(bands::power(f32::from_bits(b), n)))?;
    end_line(to)
}

// The root of the float with the bits b, up to the infinity's.
fn root_line<W: Write>(to: &mut W, b: u32) -> io::Result<()> {
    if b > 2139095040 {
        return Ok(());
    }
    to.write_all(b"root")?;
    word(to, u64::from(b))?;
    word(to, bits(bands::root32(f32::from_bits(b))))?;
    end_line(to)
}

fn whole_line<W: Write>(to: &mut W, x: u64) -> io::Result<()> {
    to.write_all(b"whole")?;
    word(to, x)?;
    word(to, bands::whole_root(x))?;
    end_line(to)
}

// Powers of any normal q, of as many near 1, and of as many subnormal ones.
fn powers<W: Write>(to: &mut W) -> io::Result<()> {
    let mut x: u64 = 1;
    for _ in 0..200 {
        let a = next(x);
        x = next(a);
        power_line(to, (8388608 + a % 2130706432) as u32, x as u32)?;
        power_line(to, (1006632960 + a % 134217728) as u32, x as u32)?;
        power_line(to, (a % 8388608) as u32, x as u32)?;
    }
    Ok(())
}

// Roots of any float above zero, and of as many subnormal ones.
fn roots<W: Write>(to: &mut W) -> io::Result<()> {
    let mut x: u64 = 2;
    for _ in 0..60 {
        x = next(x);
        root_line(to, (x % 2139095040) as u32)?;
        root_line(to, (x % 8388608) as u32)?;
    }
    Ok(())
}

fn wholes<W: Write>(to: &mut W) -> io::Result<()> {
    let mut x: u64 = 3;
    for _ in 0..60 {
        let a = next(x);
        x = next(a);
        whole_line(to, a * 4294967296 + x)?;
        whole_line(to, x)?;
    }
    Ok(())
}

// P at 0, at the least fraction above it, at a half and at the largest below 1.
fn power_ends<W: Write>(to: &mut W, b: u32) -> io::Result<()> {
    power_line(to, b, 0)?;
    power_line(to, b, 1)?;
    power_line(to, b, 2147483648)?;
    power_line(to, b, 4294967295)
}

// The least subnormal, two and three times that, half of the least normal, the largest subnormal, the least normal;
// then powers of the least on both sides of the least normal, and of half of it.
fn power_smalls<W: Write>(to: &mut W) -> io::Result<()> {
    power_ends(to, 1)?;
    power_ends(to, 2)?;
    power_ends(to, 3)?;
    power_ends(to, 4194304)?;
    power_ends(to, 8388607)?;
    power_ends(to, 8388608)?;
    power_line(to, 1, 3631985767)?;
    power_line(to, 1, 3631985768)?;
    power_line(to, 1, 3660811050)?;
    power_line(to, 1, 3660811051)
}

// 1, 2, the largest, the infinity and 0.
fn power_edges<W: Write>(to: &mut W) -> io::Result<()> {
    power_line(to, 1065353216, 4294967295)?;
    power_line(to, 1065353216, 0)?;
    power_line(to, 1073741824, 2147483648)?;
    power_line(to, 1073741824, 1)?;
    power_line(to, 2139095039, 4294967295)?;
    power_line(to, 2139095039, 0)?;
    power_line(to, 2139095040, 4294967295)?;
    power_line(to, 0, 5)
}

// 0, the least, the largest subnormal, the least normal, 1, 2, 4, the largest, the infinity.
fn root_edges<W: Write>(to: &mut W) -> io::Result<()> {
    root_line(to, 0)?;
    root_line(to, 1)?;
    root_line(to, 2)?;
    root_line(to, 3)?;
    root_line(to, 8388607)?;
    root_line(to, 8388608)?;
    root_line(to, 1065353216)?;
    root_line(to, 1073741824)?;
    root_line(to, 1082130432)?;
    root_line(to, 2139095039)?;
    root_line(to, 2139095040)
}

fn whole_edges<W: Write>(to: &mut W) -> io::Result<()> {
    whole_line(to, 0)?;
    whole_line(to, 1)?;
    whole_line(to, 3)?;
    whole_line(to, 4)?;
    whole_line(to, 18446744065119617024)?;
    whole_line(to, 18446744065119617025)?;
    whole_line(to, 18446744073709551615)
}

pub(crate) fn all<W: Write>(to: &mut W) -> io::Result<()> {
    powers(to)?;
    power_smalls(to)?;
    power_edges(to)?;
    roots(to)?;
    root_edges(to)?;
    wholes(to)?;
    whole_edges(to)
}
