// Replays cases of the calls on rows from standard input and writes what each gives: `read_header`, `write_record`, `read_record`,
// `quantlist` and, of a header that is refused, `readheader`. All numbers of the input are words: how many cases there are, where each begins, and for a case: where its name is and its
// length, the call, how many samples, their rule (base, step, modulus), how many numbers of rows, where those that are not 0 are listed
// and in how many words, where its text or header is and its length, the buffer's length, the bit in two words, the low one first, and the kind.
#![tactic(auto)]

use record::{ReadError, Taken, WriteError, Written};
use show::{Case, Program, Replay};
use std::io;
use std::io::Write;

mod rows;
mod samples;
mod text;

// A reply of one number and one value.
fn reply<W: Write>(out: &mut W, number: u64, value: usize) -> io::Result<()> {
    show::decimal(out, number)?;
    show::next(out, value as u64)?;
    show::end(out)
}

// A record, or of a long one the total.
fn show_text<W: Write>(out: &mut W, record: &[u8]) -> io::Result<()> {
    if record.len() < 65536 {
        return show::text(out, record);
    }
    show::line(out, b"text=", text::total(record))
}

// A record that was written, and whether the bytes past it stay.
fn show_record_of<W: Write>(out: &mut W, buffer: &[u8], length: usize) -> io::Result<()> {
    show_text(out, show::first(buffer, length))?;
    if text::untouched(show::rest(buffer, length)) {
        show::text(out, b"past=unchanged\n")?;
    }
    Ok(())
}

// That a refusal leaves the buffer as it was.
fn show_unchanged<W: Write>(out: &mut W, buffer: &[u8]) -> io::Result<()> {
    if text::untouched(buffer) {
        show::text(out, b"text=unchanged\n")?;
    }
    Ok(())
}

// Why a record was not written.
fn show_unwritten<W: Write>(out: &mut W, why: WriteError) -> io::Result<()> {
    match why {
        WriteError::Lent => show::text(out, b"1\n"),
        WriteError::Row { kind } => reply(out, 6, kind),
        WriteError::Room { length } => reply(out, 9, length),
    }
}

fn show_written<W: Write>(out: &mut W, r: Written, buffer: &[u8]) -> io::Result<()> {
    show::text(out, b"reply=")?;
    match r {
        Ok(length) => {
            reply(out, 0, length)?;
            show_record_of(out, buffer, length)
        }
        Err(why) => {
            show_unwritten(out, why)?;
            show_unchanged(out, buffer)
        }
    }
}

// Writes into a buffer of Zs.
fn write<W: Write>(
    out: &mut W,
    rows: &[u16],
    samples: &[i32],
    buffer: &mut [u8],
) -> io::Result<()> {
    buffer.fill(b'Z');
    let r = record::write_record(rows, samples, buffer);
    show_written(out, r, buffer)
}

fn show_taken<W: Write>(out: &mut W, r: Taken) -> io::Result<()> {
    show::text(out, b"reply=")?;
    match r {
        Ok(()) => show::text(out, b"0\n"),
        Err(ReadError::Lent) => show::text(out, b"1\n"),
        Err(ReadError::Room { length }) => reply(out, 9, length),
        Err(ReadError::Text { length }) => reply(out, 10, length),
    }
}

fn show_samples<W: Write>(out: &mut W, part: &[i32]) -> io::Result<()> {
    if samples::untouched(part) {
        return show::text(out, b"samples=unchanged\n");
    }
    show::line(out, b"samples=", samples::total(part))
}

// Reads into rows of abcd and samples of 77.
fn read<W: Write>(
    out: &mut W,
    source: &[u8],
    rows: &mut [u16],
    part: &mut [i32],
) -> io::Result<()> {
    part.fill(77);
    let r = record::read_record(source, rows, part);
    show_taken(out, r)?;
    rows::show_rows(out, rows)?;
    show_samples(out, part)
}

fn write_rows<W: Write>(
    out: &mut W,
    case: Case,
    part: &[i32],
    buffer: &mut [u8],
) -> io::Result<()> {
    let rows = case.rows_listed(8);
    write(
        out,
        show::first(&rows, case.field(7)),
        part,
        show::first_mut(buffer, case.field(12)),
    )
}

fn write_case<W: Write>(
    out: &mut W,
    case: Case,
    part: &mut [i32],
    buffer: &mut [u8],
) -> io::Result<()> {
    case.fill_by_rule(part);
    write_rows(out, case, show::first(part, case.field(3)), buffer)
}

fn read_case<W: Write>(out: &mut W, case: Case, source: &[u8], part: &mut [i32]) -> io::Result<()> {
    let mut rows = [0xabcdu16; 2304];
    read(
        out,
        source,
        show::first_mut(&mut rows, case.field(7)),
        show::first_mut(part, case.field(3)),
    )
}

// The record that a case before left in the buffer, as long as the case says.
fn back_case<W: Write>(out: &mut W, case: Case, part: &mut [i32], buffer: &[u8]) -> io::Result<()> {
    read_case(out, case, show::first(buffer, case.field(11)), part)
}

// Reads a header into rows of abcd.
fn read_header<W: Write>(
    out: &mut W,
    header: &[u8],
    bit: u64,
    kind: usize,
    rows: &mut [u16],
) -> io::Result<()> {
    show::reply_line(out, params::read_header(header, bit, kind, rows))?;
    rows::show_rows(out, rows)
}

// The bit that a case starts at is in two words.
fn header_case<W: Write>(out: &mut W, case: Case) -> io::Result<()> {
    let mut rows = [0xabcdu16; 2304];
    read_header(
        out,
        case.named(10),
        case.number(13),
        case.field(15),
        show::first_mut(&mut rows, case.field(7)),
    )
}

// What `readheader` writes of a header that is refused: the reply alone.
fn reply_case<W: Write>(out: &mut W, header: &[u8]) -> io::Result<()> {
    let mut rows = [0u16; 2176];
    show::reply_line(out, params::read_header(header, 0, 0, &mut rows))
}

// Which call a case names, by its number; each other number is that of the last.
enum Which {
    Write,
    Read,
    Back,
    Header,
    Quantlist,
    Reply,
}

impl From<usize> for Which {
    fn from(n: usize) -> Which {
        match n {
            0 => Which::Write,
            1 => Which::Read,
            2 => Which::Back,
            3 => Which::Header,
            4 => Which::Quantlist,
            _ => Which::Reply,
        }
    }
}

// The call that a case names.
fn call<W: Write>(out: &mut W, case: Case, part: &mut [i32], buffer: &mut [u8]) -> io::Result<()> {
    match Which::from(case.field(2)) {
        Which::Write => write_case(out, case, part, buffer),
        Which::Read => read_case(out, case, case.named(10), part),
        Which::Back => back_case(out, case, part, buffer),
        Which::Header => header_case(out, case),
        Which::Quantlist => show_record::quantlist(out, case.named(10)),
        Which::Reply => reply_case(out, case.named(10)),
    }
}

// What the calls are lent.
#[derive(Drop)]
struct Lent<'a> {
    part: &'a mut [i32],
    buffer: &'a mut [u8],
}

impl<'a> Replay for Lent<'a> {
    fn write_case<W: Write>(&mut self, out: &mut W, case: Case) -> io::Result<()> {
        call(out, case, self.part, self.buffer)
    }
}

fn run_all<W: Write>(out: &mut W, s: &[u8], part: &mut [i32], buffer: &mut [u8]) -> io::Result<()> {
    show::run_cases(out, s, Lent { part, buffer })
}

// With samples, and a buffer that is long enough for each case.
fn with_buffer<W: Write>(out: &mut W, s: &[u8]) -> io::Result<()> {
    let mut part = [0i32; 394752];
    let mut buffer = [0u8; 4500000];
    run_all(out, s, &mut part, &mut buffer)
}

// The program.
struct Cases;

impl Program for Cases {
    fn write<W: Write>(&self, out: &mut W, text: &[u8]) -> io::Result<()> {
        with_buffer(out, text)
    }
}

fn main(rt: HostRuntime) -> io::Result<()> {
    show::run(
        &mut rt.stdin(),
        &mut io::writer(&rt),
        &mut [0u8; 65536],
        &Cases,
    )
}
