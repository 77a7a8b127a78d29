// Replays cases of the calls on one arena from standard input and writes what each gives: `stretch_total` and `replace_kind`, or calls on a
// short arena, one after another. All numbers are words of four bytes, the lowest first, and those that need 64 bits two of them: how many
// cases there are, where each begins, and for a case: where its name is and its length, the call, the arena's length and rule, the weights'
// length and rule, where the places to be shown are and how many, then first, count, total and kind in two words each; where a short
// arena's state is (18 words) and its calls (eight words each), and how many words they have. A rule is six words: base, step, jump and
// mask, where the weights that stand apart from it are and how many words they have; in a call on a short arena it is the first four.
#![tactic(auto)]

use show::{Case, Program, Replay};
use std::io;
use std::io::Write;

mod calls;
mod lent;
mod short;
mod shown;

#[derive(Drop)]
struct Cases;

impl Replay for Cases {
    fn write_case<W: Write>(&mut self, out: &mut W, case: Case) -> io::Result<()> {
        calls::call(out, case)
    }
}

impl Program for Cases {
    fn write<W: Write>(&self, out: &mut W, text: &[u8]) -> io::Result<()> {
        show::run_cases(out, text, Cases)
    }
}

fn main(rt: HostRuntime) -> io::Result<()> {
    show::run(
        &mut rt.stdin(),
        &mut io::writer(&rt),
        &mut [0u8; 65536],
        &Cases,
    )
}
