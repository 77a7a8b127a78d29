// Lists a header: reads at most 2,550 bytes from standard input and writes the record, or the lines of what refuses it.
#![tactic(auto)]

use show::Program;
use std::io;
use std::io::Write;

struct Quantlist;

impl Program for Quantlist {
    fn write<W: Write>(&self, out: &mut W, header: &[u8]) -> io::Result<()> {
        show_record::quantlist(out, header)
    }
}

fn main(rt: HostRuntime) -> io::Result<()> {
    show::run(
        &mut rt.stdin(),
        &mut io::writer(&rt),
        &mut [0u8; 2550],
        &Quantlist,
    )
}
