// Reads a header from standard input, at most 2,550 bytes, and writes the reply and the rows.
#![tactic(auto)]

use show::Program;
use std::io;
use std::io::Write;

// The reply of a header, and its rows where they were written, to its end or to a raw kind.
fn show_header<W: Write>(out: &mut W, header: &[u8]) -> io::Result<()> {
    let mut rows = [0u16; 2176];
    let r = params::read_header(header, 0, 0, &mut rows);
    show::reply_line(out, r)?;
    if r.is_ok() {
        for (kind, row) in rows.chunks(128).enumerate() {
            show::row(out, kind, row)?;
        }
    }
    Ok(())
}

struct Readheader;

impl Program for Readheader {
    fn write<W: Write>(&self, out: &mut W, header: &[u8]) -> io::Result<()> {
        show_header(out, header)
    }
}

fn main(rt: HostRuntime) -> io::Result<()> {
    show::run(
        &mut rt.stdin(),
        &mut io::writer(&rt),
        &mut [0u8; 2550],
        &Readheader,
    )
}
