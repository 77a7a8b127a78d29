// Lists matrices: expands the header on standard input, at most 2,550 bytes, and writes for each kind and channel, of what lookup
// shows in the straight order, the 64-bit total of bits x (place + 1) and the bits of the four corner weights.
#![tactic(auto)]

use show::Program;
use std::io;
use std::io::Write;

struct Matrixlist;

impl Program for Matrixlist {
    fn write<W: Write>(&self, out: &mut W, header: &[u8]) -> io::Result<()> {
        show_set::summaries(out, header)
    }
}

fn main(rt: HostRuntime) -> io::Result<()> {
    show::run(
        &mut rt.stdin(),
        &mut io::writer(&rt),
        &mut [0u8; 2550],
        &Matrixlist,
    )
}
