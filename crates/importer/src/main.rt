// Cuts keys: expands the header on standard input, at most 2,550 bytes, and writes for each kind and channel the first row of
// what lookup shows in the straight order: eight hexadecimal digits for a weight, commas between them.
#![tactic(auto)]

use show::Program;
use std::io;
use std::io::Write;

struct Importer;

impl Program for Importer {
    fn write<W: Write>(&self, out: &mut W, header: &[u8]) -> io::Result<()> {
        show_set::keys(out, header)
    }
}

fn main(rt: HostRuntime) -> io::Result<()> {
    show::run(
        &mut rt.stdin(),
        &mut io::writer(&rt),
        &mut [0u8; 2550],
        &Importer,
    )
}
