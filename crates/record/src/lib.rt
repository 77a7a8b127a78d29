// The text record of a description: written and read.
#![tactic(auto)]

ghost use Rattle.std.specs.Prelude.{◌≤◌, length};

mod fixed;
mod kinds;
mod piece;
mod put;
mod reader;
mod series;
mod writer;

pub use reader::{ReadError, Taken, read_record};
pub use writer::{WriteError, Written, write_record};

// The two stand here and not in `piece`, since the prover's text spells a type's whole path wherever it names the type.

// A record's text, and the position up to which it is read.
#[derive(Drop)]
pub(crate) struct Text<'a> {
    bytes: &'a [u8],
    at: usize,
    ghost within: { at ≤ length bytes.now },
}

// The position that refuses.
#[derive(Clone, Copy)]
pub(crate) struct Bad {
    at: usize,
}
