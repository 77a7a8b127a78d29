// What programs write of a header's set. It only writes, and has no contract (docs/DECISIONS.md, 21).
#![tactic(auto)]

use matrix::{ExpandError, Expanded};
use std::io;
use std::io::Write;

mod list;

pub use list::{keys, summaries};

fn refused_kind<W: Write>(out: &mut W, number: u64, kind: usize) -> io::Result<()> {
    show::refusal(out, number)?;
    show::kind(out, kind)
}

fn refused_channel<W: Write>(
    out: &mut W,
    number: u64,
    kind: usize,
    channel: usize,
) -> io::Result<()> {
    refused_kind(out, number, kind)?;
    show::line(out, b"channel=", channel as u64)
}

fn refused_band<W: Write>(out: &mut W, kind: usize, channel: usize, band: usize) -> io::Result<()> {
    refused_channel(out, 7, kind, channel)?;
    show::line(out, b"band=", band as u64)
}

fn refused_weight<W: Write>(
    out: &mut W,
    kind: usize,
    channel: usize,
    place: usize,
) -> io::Result<()> {
    refused_channel(out, 8, kind, channel)?;
    show::line(out, b"place=", place as u64)
}

// What refuses an expansion, a line for each number.
fn refused<W: Write>(out: &mut W, why: ExpandError) -> io::Result<()> {
    match why {
        ExpandError::Lent => show::refusal(out, 1),
        ExpandError::Row { kind } => refused_kind(out, 6, kind),
        ExpandError::Band {
            kind,
            channel,
            band,
        } => refused_band(out, kind, channel, band),
        ExpandError::Weight {
            kind,
            channel,
            place,
        } => refused_weight(out, kind, channel, place),
        ExpandError::Denom { kind } => refused_kind(out, 12, kind),
    }
}

// Whether an expansion was done. A refusal is written.
fn is_done<W: Write>(out: &mut W, r: Expanded) -> io::Result<bool> {
    if let Err(why) = r {
        refused(out, why)?;
    }
    Ok(r.is_ok())
}

fn expand_rows<W: Write>(
    out: &mut W,
    rows: &[u16],
    straight: &mut [f32],
    transposed: &mut [f32],
) -> io::Result<bool> {
    is_done(out, dequant::expand(rows, &[], straight, transposed))
}

// Expands the set of a header without raw kinds; whether that was done. What refuses it is written.
pub(crate) fn expand_header<W: Write>(
    out: &mut W,
    header: &[u8],
    straight: &mut [f32],
    transposed: &mut [f32],
) -> io::Result<bool> {
    let mut rows = [0u16; 2176];
    let r = params::read_header(header, 0, 0, &mut rows);
    if show::is_refused(r) {
        show::refused(out, r)?;
        return Ok(false);
    }
    expand_rows(out, &rows, straight, transposed)
}
