// What programs write of weights. What works something out has a contract, what only writes has none (docs/DECISIONS.md, 21).
#![tactic(auto)]

ghost use Rattle.std.specs.Prelude.{◌≡◌};
ghost use Rattle.total.specs.Total.{total_from};
ghost use lib.Ieee.{binary32, to_bits};

use show::Numbers;
use std::io;
use std::io::Write;

// Weights by their bits.
struct Bits;

impl Numbers for Bits {
    type Item = f32;

    ghost number = { to_bits binary32 };

    fn number_of(x: f32) -> u64 {
        u64::from(total::bits(x))
    }
}

// The total of weights whose first place is 0, of any number of them: from the last place on, each weight's bits are in the
// running sum once for each place up to its own.
pub fn total(part: &[f32]) -> u64
    ensures { result ≡ total_from 0 part.now }
{
    show::total_by::<Bits>(part)
}

// A weight's bits, as eight hexadecimal digits.
fn weight<W: Write>(out: &mut W, x: f32) -> io::Result<()> {
    let bits = total::bits(x);
    write!(out, "{bits:08x}")
}

// A weight, a comma before each but the first.
pub fn item<W: Write>(out: &mut W, i: usize, x: f32) -> io::Result<()> {
    if i > 0 {
        show::comma(out)?;
    }
    weight(out, x)
}

// The weight at a place, and nothing where there is none.
pub fn weight_at<W: Write>(out: &mut W, part: &[f32], i: usize) -> io::Result<()> {
    match part.get(i) {
        Some(x) => weight(out, *x),
        None => Ok(()),
    }
}

fn place<W: Write>(out: &mut W, part: &[f32], i: usize) -> io::Result<()> {
    show::comma(out)?;
    show::decimal(out, i as u64)?;
    show::text(out, b":")?;
    weight_at(out, part, i)
}

// The weights at the places of a list of words, each behind a comma.
fn places<W: Write>(out: &mut W, part: &[f32], list: &[u8]) -> io::Result<()> {
    for i in 0..list.len() / 4 {
        place(out, part, show::word(list, i) as usize)?;
    }
    Ok(())
}

// The total, the weights at the places of a list, and a line end.
pub fn summary<W: Write>(out: &mut W, part: &[f32], list: &[u8]) -> io::Result<()> {
    show::decimal(out, total(part))?;
    places(out, part, list)?;
    show::end(out)
}
