// Replays cases of `expand`, `expand_kind`, `lookup`, the JPEG call, `importer` and `matrixlist` from standard input and writes what each
// gives. All numbers are words of four bytes, the lowest first: how many cases there are, where each begins, and for a case: where its
// name is and its length, the call, how many samples, their rule (base, step, modulus), kind, channel and order, where its places are and how many, where the
// numbers of its rows are and how many words they have, the lengths of rows and arenas, where the samples that stand apart from the
// rule are and how many words they have, and where its header is and its length.
#![tactic(auto)]

use show::{Case, Program, Replay};
use std::io;
use std::io::Write;

mod calls;
mod lent;
mod shown;

#[derive(Drop)]
struct Cases;

impl Replay for Cases {
    fn write_case<W: Write>(&mut self, out: &mut W, case: Case) -> io::Result<()> {
        calls::call(out, case)
    }
}

impl Program for Cases {
    fn write<W: Write>(&self, out: &mut W, text: &[u8]) -> io::Result<()> {
        show::run_cases(out, text, Cases)
    }
}

fn main(rt: HostRuntime) -> io::Result<()> {
    show::run(
        &mut rt.stdin(),
        &mut io::writer(&rt),
        &mut [0u8; 65536],
        &Cases,
    )
}
