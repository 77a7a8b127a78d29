// The lines of a kind, read into its row and its part of the arena.
ghost use Rattle.std.specs.Prelude.{◌≡◌, List, ℕ, ◌+◌, ◌*◌, ◌≤◌, ◌<◌, length, eqb, ℤ, pos};
ghost use Rattle.std.proofs.lemmas.List.Edits.{sets};
ghost use Rattle.transform.specs.Kinds.{start_of};
ghost use Rattle.params.specs.Row.{fixed};
ghost use Rattle.record.specs.Format.{pick};
ghost use Rattle.record.specs.Text.{bytes};
ghost use Rattle.record.specs.Number.{signed};
ghost use Rattle.record.specs.Record.{line, sample_count, parts};
ghost use Rattle.record.specs.Rows.{Row, row_format};
ghost use Rattle.record.specs.Answers.{Reads, Fresh, PartsStored, RowStored};

use crate::fixed::mode_at;
use crate::piece::fixed_at;
use crate::put::store_all;
use crate::series::{Bands, Numbers, Samples, Series, items_at};
use crate::{Bad, Text};
use transform::Kind;

// The line of n items of a series, where there is one, stored from a place on.
fn line_at<S: Series>(
    text: &mut Text,
    n: usize,
    out: &mut [S::Item],
    place: usize,
) -> Result<(), Bad>
    requires { place + n < 4294967296 }
    ensures { Reads (line S.named S.any S.format n) text.old text.new result (λ vs. out.new ≡ sets out.old place vs) }
{
    if n == 0 {
        return Ok(());
    }
    fixed_at(text, S::name())?;
    items_at::<S>(text, n, out, place)
}

// How many numbers a mode has with its band counts.
pub(crate) fn number_count(mode: usize, c: u16, d: u16) -> usize
    requires { mode < 8 }
    ensures { (result ≡ fixed mode + 3 * c + 3 * d) × (result < 1000000) }
{
    params::FIXED[mode] + 3 * usize::from(c) + 3 * usize::from(d)
}

// How many samples a kind has in a mode.
pub(crate) fn sample_count(kind: usize, mode: usize) -> usize
    ensures { result ≡ sample_count kind mode }
{
    if mode == 7 {
        Kind { no: kind }.arena_length()
    } else {
        0
    }
}

// Where a kind's samples start in an arena, or 0 where it has none.
pub(crate) fn part_start(kind: usize, mode: usize) -> usize
    ensures { result ≡ pick (eqb mode 7) (start_of kind) 0 }
{
    if mode != 7 {
        return 0;
    }
    Kind { no: kind }.arena_start()
}

// The line of a kind's samples, where there is one, into its part of the arena.
fn part_at(text: &mut Text, kind: usize, mode: usize, arena: &mut [i32]) -> Result<(), Bad>
    ensures { Reads (line (bytes "samples=") (pos 0) signed (sample_count kind mode)) text.old text.new result (λ vs. arena.new ≡ sets arena.old (start_of kind) vs) }
{
    let n = sample_count(kind, mode);
    let shape = Kind { no: kind };
    line_at::<Samples>(text, n, arena, shape.arena_start())
}

// What follows a kind's mode.
fn parts_at(
    text: &mut Text,
    kind: usize,
    mode: usize,
    row: &mut [u16],
    arena: &mut [i32],
) -> Result<(), Bad>
    requires { (mode < 8) × Fresh row.old }
    ensures { Reads (parts kind mode) text.old text.new result (PartsStored kind row.old row.new arena.old arena.new) }
{
    line_at::<Bands>(text, params::LISTS[mode], row, 1)?;
    let n = number_count(mode, row[1], row[2]);
    line_at::<Numbers>(text, n, row, 3)?;
    part_at(text, kind, mode, arena)
}

// A kind's row and samples.
pub(crate) fn row_at(
    text: &mut Text,
    kind: usize,
    rows: &mut [u16],
    arena: &mut [i32],
) -> Result<(), Bad>
    requires { kind < 17 }
    ensures { Reads (row_format kind) text.old text.new result (RowStored kind rows.old rows.new arena.old arena.new) }
{
    let mut row = [0u16; 128];
    let mode = mode_at(text, kind)?;
    row[0] = mode as u16;
    parts_at(text, kind, mode as usize, &mut row, arena)?;
    store_all(rows, kind * 128, &row);
    Ok(())
}
