// Cases of an input of words: the first word is how many there are, the next are where each begins, and each case begins with the words
// that its program names. A case is known by the byte at which it begins.
ghost use Rattle.std.specs.Prelude.{◌≡◌, ℕ, List, Option, OnOk, replicate, ⊤};
ghost use Rattle.show.specs.Input.{word_at, field_at, number_at, named_at, listed_at};
ghost use Rattle.show.specs.Filled.{rows_with, samples_by};
ghost use Rattle.show.specs.Runs.{Replayed};

use crate::filled::{fill_rows, fill_samples};
use crate::parts::{first, rest};
use crate::words::word;
use crate::{end, text};
use std::io;
use std::io::Write;

// An input, and the byte at which one of its cases begins.
#[derive(Clone, Copy)]
pub struct Case<'a> {
    bytes: &'a [u8],
    at: usize,
}

impl<'a> Case<'a> {
    // The case that begins at byte `at`.
    pub fn new(bytes: &'a [u8], at: usize) -> Case<'a>
        ensures { result ≡ record { bytes = bytes.entry; at = at } }
    {
        Case { bytes, at }
    }

    // The word number j of a case, with its 32 bits.
    pub fn word(self, j: usize) -> u32
        ensures { result ≡ field_at self.entry.bytes.now self.entry.at j }
    {
        word(rest(self.bytes, self.at), j)
    }

    // The word number j of a case.
    pub fn field(self, j: usize) -> usize
        ensures { result ≡ field_at self.entry.bytes.now self.entry.at j }
    {
        self.word(j) as usize
    }

    // The number of a case's word j and the next, the low one first.
    pub fn number(self, j: u32) -> u64
        ensures { result ≡ number_at self.entry.bytes.now self.entry.at j }
    {
        let i = j as usize;
        u64::from(self.word(i)) + 4294967296 * u64::from(self.word(i + 1))
    }

    // The bytes that a case names by word j, where they begin, and the next, how many there are.
    pub fn named(self, j: u32) -> &'a [u8]
        ensures { result.now ≡ named_at self.entry.bytes.now self.entry.at j }
    {
        // A u32 always has a next in a usize.
        let i = j as usize;
        first(rest(self.bytes, self.field(i)), self.field(i + 1))
    }

    // The words that a case names by word j and the next.
    pub fn listed(self, j: u32) -> &'a [u8]
        ensures { result.now ≡ listed_at self.entry.bytes.now self.entry.at j }
    {
        let i = j as usize;
        let n = self.word(i + 1) as usize;
        first(rest(self.bytes, self.field(i)), 4 * n)
    }

    // Rows of 0 but for the numbers that a case lists.
    #[tactic(auto, using(crate::proofs::Laws::rows_listed))]
    pub fn rows_listed(self, j: u32) -> [u16; 2304]
        ensures { result ≡ rows_with (listed_at self.entry.bytes.now self.entry.at j) (replicate 2304 0) }
    {
        let mut rows = [0u16; 2304];
        fill_rows(self.listed(j), &mut rows);
        rows
    }

    // The samples by the rule of a case: base, step and modulus are its words 4, 5 and 6.
    pub fn fill_by_rule(self, samples: &mut [i32])
        ensures { samples.new ≡ samples_by (field_at self.entry.bytes.now self.entry.at 4) (field_at self.entry.bytes.now self.entry.at 5) (field_at self.entry.bytes.now self.entry.at 6) samples.old }
    {
        let base = self.word(4);
        let step = self.word(5);
        let modulus = self.word(6);
        fill_samples(samples, base, step, modulus);
    }
}

// What replays a case.
pub trait Replay {
    // What a writer may hold after a case of an input, known by where it begins, was replayed, by what it held before. It may be left open.
    ghost leaves: { List ℕ → ℕ → Option (List ℕ) → Option (List ℕ) → Type 0 } = { λ _ _ _ _. ⊤ };

    fn write_case<W: Write>(&mut self, out: &mut W, case: Case) -> io::Result<()>
        ensures bytes { OnOk result (leaves case.entry.bytes.now case.entry.at (W.contents out.old) (W.contents out.new)) };
}

// Replays each case of an input: its name, a line, and what `replay` writes of it.
#[tactic(auto, using(crate::proofs::RunLaws::replayed_none))]
pub fn run_cases<W: Write, C: Replay + Drop>(
    out: &mut W,
    input: &[u8],
    mut replay: C,
) -> io::Result<()>
    ensures bytes { OnOk result (Replayed C.leaves input.now (word_at input.now 0) (W.contents out.old) (W.contents out.new)) }
{
    for i in 1..=word(input, 0) as usize {
        let case = Case::new(input, word(input, i) as usize);
        text(out, case.named(0))?;
        end(out)?;
        replay.write_case(out, case)?;
    }
    Ok(())
}
