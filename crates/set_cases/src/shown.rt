// What is written of each call.
use dequant::{Jpeg, JpegError};
use matrix::{ExpandError, Expanded};
use std::io;
use std::io::Write;

fn one<W: Write>(out: &mut W, number: u64, kind: usize) -> io::Result<()> {
    show::decimal(out, number)?;
    show::next(out, kind as u64)
}

fn three<W: Write>(
    out: &mut W,
    number: u64,
    kind: usize,
    channel: usize,
    last: usize,
) -> io::Result<()> {
    one(out, number, kind)?;
    show::next(out, channel as u64)?;
    show::next(out, last as u64)
}

// The number of what refuses an expansion, and its values.
fn refused<W: Write>(out: &mut W, why: ExpandError) -> io::Result<()> {
    match why {
        ExpandError::Lent => show::decimal(out, 1),
        ExpandError::Row { kind } => one(out, 6, kind),
        ExpandError::Band {
            kind,
            channel,
            band,
        } => three(out, 7, kind, channel, band),
        ExpandError::Weight {
            kind,
            channel,
            place,
        } => three(out, 8, kind, channel, place),
        ExpandError::Denom { kind } => one(out, 12, kind),
    }
}

// The reply of an expansion: its number, and its values.
fn reply<W: Write>(out: &mut W, r: Expanded) -> io::Result<()> {
    match r {
        Ok(()) => show::decimal(out, 0),
        Err(why) => refused(out, why),
    }
}

pub(crate) fn show_reply<W: Write>(out: &mut W, r: Expanded) -> io::Result<()> {
    show::text(out, b"reply=")?;
    reply(out, r)?;
    show::end(out)
}

// Whether each weight has these bits.
fn all_of(part: &[f32], bits: u32) -> bool {
    part.iter().all(|x| total::bits(*x) == bits)
}

// An arena: unchanged, zero, or its weights.
fn show_arena<W: Write>(out: &mut W, part: &[f32], places: &[u8]) -> io::Result<()> {
    if all_of(part, 0xdeadbeef) {
        return show::text(out, b"unchanged\n");
    }
    if all_of(part, 0) {
        return show::text(out, b"zero\n");
    }
    show_weights::summary(out, part, places)
}

pub(crate) fn show_arenas<W: Write>(
    out: &mut W,
    places: &[u8],
    straight: &[f32],
    transposed: &[f32],
) -> io::Result<()> {
    show::text(out, b"straight=")?;
    show_arena(out, straight, places)?;
    show::text(out, b"transposed=")?;
    show_arena(out, transposed, places)
}

// The first weight, the last, and the total.
fn show_ends<W: Write>(out: &mut W, part: &[f32], last: usize) -> io::Result<()> {
    show::blank(out)?;
    show_weights::weight_at(out, part, 0)?;
    show::blank(out)?;
    show_weights::weight_at(out, part, last)?;
    show::next(out, show_weights::total(part))
}

// The length of a part, and its ends where it has some.
pub(crate) fn show_part<W: Write>(out: &mut W, part: &[f32]) -> io::Result<()> {
    let n = part.len();
    show::text(out, b"part=")?;
    show::decimal(out, n as u64)?;
    if n > 0 {
        show_ends(out, part, n - 1)?;
    }
    show::end(out)
}

// Values as weights: whole numbers that an f32 has.
fn show_values<W: Write>(out: &mut W, part: &[i32]) -> io::Result<()> {
    for (i, x) in part.iter().enumerate() {
        show_weights::item(out, i, std::num::nearest_i32_to_f32(*x))?;
    }
    Ok(())
}

fn jpeg_number(r: Jpeg) -> u64 {
    match r {
        Ok(()) => 0,
        Err(JpegError::Lent) => 1,
        Err(JpegError::Row { .. }) => 6,
        Err(JpegError::None) => 11,
    }
}

pub(crate) fn show_jpeg<W: Write>(
    out: &mut W,
    rows: &[u16],
    samples: &[i32],
    channel: usize,
) -> io::Result<()> {
    show::line(
        out,
        b"reply=",
        jpeg_number(dequant::jpeg_reply(rows, samples, channel)),
    )?;
    show::text(out, b"part=")?;
    show_values(out, dequant::jpeg_quant_values(rows, samples, channel))?;
    show::end(out)
}
