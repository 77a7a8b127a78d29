// What programs read.
ghost use Rattle.std.specs.Prelude.{ℕ, ◌≤◌, List, length, Option, IfOk, OnOk, ⊤};
ghost use Rattle.show.specs.Runs.{Ran};

use std::io;
use std::io::{Read, Write};

// Fills a slice from a reader as far as the input goes, and says how many bytes there are. Which bytes come no contract here says.
pub fn read_full<R: Read>(input: &mut R, to: &mut [u8]) -> io::Result<usize>
    ensures within { IfOk result (λ n. n ≤ length to.old) }
{
    let mut n = 0;
    while n < to.len() {
        let got = input.read(&mut to[n..])?;
        if got == 0 {
            return Ok(n);
        }
        n += got;
    }
    Ok(n)
}

// A program, by what it does with the text that it is handed.
pub trait Program {
    // What a writer may hold after the program wrote of a text, by what it held before. A program may leave it open.
    ghost leaves: { List ℕ → Option (List ℕ) → Option (List ℕ) → Type 0 } = { λ _ _ _. ⊤ };

    fn write<W: Write>(&self, out: &mut W, text: &[u8]) -> io::Result<()>
        ensures bytes { OnOk result (leaves text.now (W.contents out.old) (W.contents out.new)) };
}

// What a program does with its input, as far as `text` has room for it.
pub fn run<R: Read, W: Write, P: Program>(
    input: &mut R,
    out: &mut W,
    text: &mut [u8],
    program: &P,
) -> io::Result<()>
    ensures bytes { OnOk result (Ran P.leaves text.new (W.contents out.old) (W.contents out.new)) }
{
    let n = read_full(input, text)?;
    program.write(out, &text[..n])?;
    out.flush()
}
