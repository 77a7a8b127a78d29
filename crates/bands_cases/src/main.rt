// Prints what `dct_quant_weights` answers and leaves, mode 5's interpolated numbers, and roots and powers, by bit patterns.
// scripts/bands_cases.py prints the same lines by its own arithmetic.
#![tactic(auto)]

use bands::BandError;
use std::io;
use std::io::Write;

mod power;

// The bits of a float; 2143289344 for a NaN.
pub(crate) fn bits(x: f32) -> u64 {
    u64::from(total::bits(x))
}

pub(crate) fn word<W: Write>(to: &mut W, n: u64) -> io::Result<()> {
    to.write_all(b" ")?;
    write!(to, "{n}")
}

pub(crate) fn end_line<W: Write>(to: &mut W) -> io::Result<()> {
    to.write_all(b"\n")
}

// The reply's number and values.
fn reply<W: Write>(to: &mut W, a: Result<(), BandError>) -> io::Result<()> {
    to.write_all(b"reply")?;
    match a {
        Ok(()) => {
            word(to, 0)?;
        }
        Err(BandError::Lent) => {
            word(to, 1)?;
        }
        Err(BandError::Band { channel, band }) => {
            word(to, 7)?;
            word(to, channel as u64)?;
            word(to, band as u64)?;
        }
    }
    end_line(to)
}

fn weights<W: Write>(to: &mut W, out: &[f32]) -> io::Result<()> {
    to.write_all(b"weights")?;
    for x in out {
        word(to, bits(*x))?;
    }
    end_line(to)
}

// One call: its reply, and what the output holds then.
fn call<W: Write>(
    to: &mut W,
    numbers: &[f32],
    count: usize,
    w: usize,
    h: usize,
    out: &mut [f32],
) -> io::Result<()> {
    let a = bands::dct_quant_weights(numbers, count, w, h, out);
    reply(to, a)?;
    weights(to, out)
}

// Mode 5's numbers of three channels at every k.
fn freqs<W: Write>(to: &mut W, p: &[f32; 12]) -> io::Result<()> {
    to.write_all(b"freqs")?;
    let all = bands::freq_weights(p);
    for x in all {
        word(to, bits(x))?;
    }
    end_line(to)
}

// Kind 0's default numbers over four grids; a grid and a count that are LENT. Each output holds 7s before.
fn defaults<W: Write>(to: &mut W) -> io::Result<()> {
    let d = [
        3150.0f32, 0.0, -0.4, -0.4, -0.4, -2.0, 560.0, 0.0, -0.3, -0.3, -0.3, -0.3, 512.0, -2.0,
        -1.0, 0.0, -1.0, -2.0,
    ];
    let mut o1 = [7.0f32; 192];
    call(to, &d, 6, 8, 8, &mut o1)?;
    let mut o2 = [7.0f32; 48];
    call(to, &d, 6, 4, 4, &mut o2)?;
    let mut o3 = [7.0f32; 96];
    call(to, &d, 6, 8, 4, &mut o3)?;
    let mut o4 = [7.0f32; 768];
    call(to, &d, 6, 32, 8, &mut o4)?;
    let mut o5 = [7.0f32; 96];
    call(to, &d, 6, 4, 8, &mut o5)?;
    let mut o6 = [7.0f32; 192];
    call(to, &d, 5, 8, 8, &mut o6)
}

// One band; a band that is zero; three bands that grow.
fn lists<W: Write>(to: &mut W) -> io::Result<()> {
    let one = [1.5f32, 2.5, 3.5];
    let mut o1 = [7.0f32; 48];
    call(to, &one, 1, 4, 4, &mut o1)?;
    let zero = [1.0f32, 1.0, 0.0, 1.0, 1.0, 1.0];
    let mut o2 = [7.0f32; 48];
    call(to, &zero, 2, 4, 4, &mut o2)?;
    let grows = [1.0f32, 1.0, 2.0, 3.0, 1.0, 3.0, 1.0, 1.0, 3.0];
    let mut o3 = [7.0f32; 384];
    call(to, &grows, 3, 16, 8, &mut o3)
}

// A default, falling bands and p5 below zero; p5 zero in the first channel.
fn corners<W: Write>(to: &mut W) -> io::Result<()> {
    let kinds = [
        414.0f32, 0.0, 0.0, 0.0, 22.0, -0.25, -0.25, -0.25, -22.0, 3.25, -0.75, 65504.0,
    ];
    freqs(to, &kinds)?;
    let zero = [
        0.0f32, 3.25, -0.75, 65504.0, 58.0, 0.0, 0.0, 0.0, 1.0, 1.0, 2.0, 3.0,
    ];
    freqs(to, &zero)
}

fn main(rt: HostRuntime) -> io::Result<()> {
    let mut to = io::writer(&rt);
    defaults(&mut to)?;
    lists(&mut to)?;
    corners(&mut to)?;
    power::all(&mut to)?;
    to.flush()
}
