// What programs share: the lines that they write, and what those that replay cases take from their input, where a number that isn't there
// is 0 and a part that isn't there is empty. A function that works something out or fills what it is lent has a contract that fixes it.
// A function that only writes answers whether the writer that it is lent took the text, and promises which bytes a writer that says what
// it holds then holds more; `run` and `run_cases` hand on what was read, and promise that it holds what that leaves. Each function is
// proved safe and ending.
#![tactic(auto)]

ghost use Rattle.std.specs.Prelude.{ℕ, ◌≢◌, slice_index, MatchOption, ◌≡◌, ◌<◌, ◌≤◌, ◌++◌, length, codes, decimal, false, OnOk};
ghost use Rattle.std.specs.Fmt.{digits};
ghost use Rattle.std.specs.Io.KnownBytes.{Appends};
ghost use Rattle.show.specs.Written.{next_of, line_of, reply_of_two, reading_of, refused_of_two, refusal_of, used_of, item_of, row_of};
ghost use Rattle.show.specs.Refused.{refused_is};

use params::{HeaderError, Reading, Stop};
use std::io;
use std::io::Write;

mod cases;
mod filled;
mod parts;
mod stream;
mod totals;
mod words;

pub use cases::{Case, Replay, run_cases};
pub use filled::{fill_samples, signed};
pub use parts::{first, first_mut, rest};
pub use stream::{Program, read_full, run};
pub use totals::{Numbers, total_by};
pub use words::word;

pub fn text<W: Write>(out: &mut W, bytes: &[u8]) -> io::Result<()>
    ensures bytes { OnOk result (Appends (W.contents out.old) (W.contents out.new) (bytes.now)) }
{
    out.write_all(bytes)
}

pub fn decimal<W: Write>(out: &mut W, n: u64) -> io::Result<()>
    ensures bytes { OnOk result (Appends (W.contents out.old) (W.contents out.new) (decimal n)) }
{
    write!(out, "{n}")
}

pub fn blank<W: Write>(out: &mut W) -> io::Result<()>
    ensures bytes { OnOk result (Appends (W.contents out.old) (W.contents out.new) (codes " ")) }
{
    text(out, b" ")
}

pub fn comma<W: Write>(out: &mut W) -> io::Result<()>
    ensures bytes { OnOk result (Appends (W.contents out.old) (W.contents out.new) (codes ",")) }
{
    text(out, b",")
}

pub fn end<W: Write>(out: &mut W) -> io::Result<()>
    ensures bytes { OnOk result (Appends (W.contents out.old) (W.contents out.new) (codes "\n")) }
{
    text(out, b"\n")
}

// A number behind a blank.
pub fn next<W: Write>(out: &mut W, n: u64) -> io::Result<()>
    ensures bytes { OnOk result (Appends (W.contents out.old) (W.contents out.new) (next_of n)) }
{
    blank(out)?;
    decimal(out, n)
}

// A name, a number and a line end.
pub fn line<W: Write>(out: &mut W, name: &[u8], n: u64) -> io::Result<()>
    ensures bytes { OnOk result (Appends (W.contents out.old) (W.contents out.new) (line_of name.now n)) }
{
    text(out, name)?;
    decimal(out, n)?;
    end(out)
}

// The numbers of a reply of two values, as document 01's table has them.
fn reply<W: Write>(out: &mut W, number: u64, kind: usize, bit: u64) -> io::Result<()>
    ensures bytes { OnOk result (Appends (W.contents out.old) (W.contents out.new) (reply_of_two number kind bit)) }
{
    decimal(out, number)?;
    next(out, kind as u64)?;
    next(out, bit)
}

fn short_reply<W: Write>(out: &mut W, kind: usize, bit: u64, lacks: u64) -> io::Result<()>
    ensures bytes { OnOk result (Appends (W.contents out.old) (W.contents out.new) (reply_of_two 2 kind bit ++ next_of lacks)) }
{
    reply(out, 2, kind, bit)?;
    next(out, lacks)
}

// The reply of a reading: document 01's number, and its values.
fn reading<W: Write>(out: &mut W, r: Reading) -> io::Result<()>
    ensures bytes { OnOk result (Appends (W.contents out.old) (W.contents out.new) (reading_of r)) }
{
    match r {
        Ok(Stop::Done { next }) => done(out, next),
        Err(HeaderError::Lent) => decimal(out, 1),
        Err(HeaderError::Short { kind, bit, lacks }) => short_reply(out, kind, bit, lacks),
        Err(HeaderError::Mode { kind, bit }) => reply(out, 3, kind, bit),
        Err(HeaderError::Float { kind, bit }) => reply(out, 4, kind, bit),
        Ok(Stop::Raw { kind, next }) => reply(out, 5, kind, next),
    }
}

fn done<W: Write>(out: &mut W, bit: u64) -> io::Result<()>
    ensures bytes { OnOk result (Appends (W.contents out.old) (W.contents out.new) (decimal 0 ++ next_of bit)) }
{
    decimal(out, 0)?;
    next(out, bit)
}

// The line of a reading's reply.
pub fn reply_line<W: Write>(out: &mut W, r: Reading) -> io::Result<()>
    ensures bytes { OnOk result (Appends (W.contents out.old) (W.contents out.new) (codes "reply=" ++ reading_of r ++ codes "\n")) }
{
    text(out, b"reply=")?;
    reading(out, r)?;
    end(out)
}

// The line of a refusal's number.
pub fn refusal<W: Write>(out: &mut W, number: u64) -> io::Result<()>
    ensures bytes { OnOk result (Appends (W.contents out.old) (W.contents out.new) (line_of (codes "refused=") number)) }
{
    line(out, b"refused=", number)
}

pub fn kind<W: Write>(out: &mut W, kind: usize) -> io::Result<()>
    ensures bytes { OnOk result (Appends (W.contents out.old) (W.contents out.new) (line_of (codes "kind=") kind)) }
{
    line(out, b"kind=", kind as u64)
}

// Whether a reading is refused. A raw entry is refused too: its samples aren't here.
pub fn is_refused(r: Reading) -> bool
    ensures { result ≡ refused_is r }
{
    !matches!(r, Ok(Stop::Done { .. }))
}

// A refused reading, a line for each number, and nothing of one that is done.
pub fn refused<W: Write>(out: &mut W, r: Reading) -> io::Result<()>
    ensures bytes { OnOk result (Appends (W.contents out.old) (W.contents out.new) (refusal_of r)) }
{
    match r {
        Ok(Stop::Done { .. }) => Ok(()),
        Err(HeaderError::Lent) => refusal(out, 1),
        Err(HeaderError::Short { kind, bit, lacks }) => refused_short(out, kind, bit, lacks),
        Err(HeaderError::Mode { kind, bit }) => refused_at(out, 3, kind, bit),
        Err(HeaderError::Float { kind, bit }) => refused_at(out, 4, kind, bit),
        Ok(Stop::Raw { kind, next }) => refused_at(out, 5, kind, next),
    }
}

fn refused_at<W: Write>(out: &mut W, number: u64, no: usize, bit: u64) -> io::Result<()>
    ensures bytes { OnOk result (Appends (W.contents out.old) (W.contents out.new) (refused_of_two number no bit)) }
{
    refusal(out, number)?;
    kind(out, no)?;
    line(out, b"bit=", bit)
}

fn refused_short<W: Write>(out: &mut W, no: usize, bit: u64, lacks: u64) -> io::Result<()>
    ensures bytes { OnOk result (Appends (W.contents out.old) (W.contents out.new) (refused_of_two 2 no bit ++ line_of (codes "lacks=") lacks)) }
{
    refused_at(out, 2, no, bit)?;
    line(out, b"lacks=", lacks)
}

// The place of the last number that is not 0.
fn last(row: &[u16]) -> Option<usize>
    ensures { MatchOption result ((k : ℕ) → k < length row.now → slice_index row.now k ≡ 0) (λ i. (i < length row.now) × (slice_index row.now i ≢ 0) × ((k : ℕ) → i < k → k < length row.now → slice_index row.now k ≡ 0)) }
{
    row.iter().rposition(|x| *x != 0)
}

// Where the zeros at the end of a row begin, but never before its second number.
#[tactic(auto, using(crate::proofs::RowLaws::used_some, crate::proofs::RowLaws::used_none))]
fn used(row: &[u16]) -> usize
    ensures used { result ≡ used_of row.now (length row.now) }
    ensures within { result ≤ length row.now }
{
    match last(row) {
        Some(i) => i + 1,
        None => row.len().min(1),
    }
}

// What stands before a row's numbers.
fn row_name<W: Write>(out: &mut W, kind: usize) -> io::Result<()>
    ensures bytes { OnOk result (Appends (W.contents out.old) (W.contents out.new) (codes "row." ++ decimal kind ++ codes "=")) }
{
    text(out, b"row.")?;
    decimal(out, kind as u64)?;
    text(out, b"=")
}

fn hexadecimal<W: Write>(out: &mut W, x: u16) -> io::Result<()>
    ensures bytes { OnOk result (Appends (W.contents out.old) (W.contents out.new) (digits 16 false x)) }
{
    write!(out, "{x:x}")
}

// A number of a row, a comma before each but the first.
fn item<W: Write>(out: &mut W, i: usize, x: u16) -> io::Result<()>
    ensures bytes { OnOk result (Appends (W.contents out.old) (W.contents out.new) (item_of i x)) }
{
    if i == 0 {
        return hexadecimal(out, x);
    }
    comma(out)?;
    hexadecimal(out, x)
}

// The numbers of a row in hexadecimal, commas between them, without the zeros at its end.
#[tactic(auto, using(crate::proofs::RowLaws::items_none, crate::proofs::RowLaws::items_more))]
pub fn row<W: Write>(out: &mut W, kind: usize, numbers: &[u16]) -> io::Result<()>
    ensures bytes { OnOk result (Appends (W.contents out.old) (W.contents out.new) (row_of kind numbers.now)) }
{
    row_name(out, kind)?;
    for (i, x) in numbers[..used(numbers)].iter().enumerate() {
        item(out, i, *x)?;
    }
    end(out)
}
