// Rows and samples that a case names.
ghost use Rattle.std.specs.Prelude.{◌≡◌, ◌+◌, ◌/◌, ◌%◌, slice_set};
ghost use Rattle.std.specs.Int.{w32};
ghost use Rattle.std.proofs.Common.{to_z};
ghost use Rattle.show.specs.Filled.{rows_with, modulo, samples_by};

use crate::words::word;

// A number of rows and, from bit 16 on, its place.
fn put(rows: &mut [u16], both: u32)
    ensures { rows.new ≡ slice_set rows.old (both / 65536) (both % 65536) }
{
    let place = (both / 65536) as usize;
    if place < rows.len() {
        rows[place] = (both % 65536) as u16;
    }
}

// The numbers of rows that the list has, each with its place in one word.
#[tactic(auto, using(crate::proofs::Laws::stored_more), unfolding(crate::specs::Filled::stored))]
pub(crate) fn fill_rows(list: &[u8], rows: &mut [u16])
    ensures { rows.new ≡ rows_with list.now rows.old }
{
    for j in 0..list.len() / 4 {
        put(rows, word(list, j));
    }
}

// The number with a sign that has these bits.
pub fn signed(bits: u32) -> i32
    ensures { result ≡ to_z w32 bits }
{
    bits.cast_signed()
}

// The rest after one more step.
#[tactic(auto, using(crate::proofs::Laws::modulo_some, crate::proofs::Laws::modulo_none))]
fn stepped(rest: u32, step: u32, modulus: u32) -> u32
    ensures { result ≡ modulo (rest + step) modulus }
{
    if modulus > 0 {
        return ((u64::from(rest) + u64::from(step)) % u64::from(modulus)) as u32;
    }
    0
}

// Sample p is base + (p x step mod modulus), by 2^32; with modulus 0 all are the base.
#[tactic(auto, using(crate::proofs::Laws::modulo_start, crate::proofs::Laws::rest_more, crate::proofs::Laws::sample_more), unfolding(crate::specs::Filled::stored))]
pub fn fill_samples(samples: &mut [i32], base: u32, step: u32, modulus: u32)
    ensures { samples.new ≡ samples_by base step modulus samples.old }
{
    let mut rest: u32 = 0;
    for sample in samples.iter_mut() {
        *sample = signed(base.wrapping_add(rest));
        rest = stepped(rest, step, modulus);
    }
}
