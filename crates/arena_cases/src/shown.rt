// What is written of each call.
use std::io;
use std::io::Write;
use total::{Lent, Total};

fn reply<W: Write>(out: &mut W, r: Total) -> io::Result<()> {
    match r {
        Ok(total) => {
            show::decimal(out, 0)?;
            show::next(out, total)
        }
        Err(Lent) => show::decimal(out, 1),
    }
}

// The reply of a call: its number, and its value.
pub(crate) fn show_reply<W: Write>(out: &mut W, r: Total) -> io::Result<()> {
    show::text(out, b"reply=")?;
    reply(out, r)?;
    show::end(out)
}

// The total of a part that is shown.
pub(crate) fn show_total<W: Write>(out: &mut W, part: &[f32]) -> io::Result<()> {
    show::text(out, b"shown=")?;
    show::decimal(out, show_weights::total(part))?;
    show::end(out)
}

// Whether two parts have the same bits.
fn same(a: &[f32], b: &[f32]) -> bool {
    a.len() == b.len()
        && a.iter()
            .zip(b)
            .all(|(x, y)| total::bits(*x) == total::bits(*y))
}

// An arena: unchanged, or its total and the weights at the places of a list.
pub(crate) fn show_arena<W: Write>(
    out: &mut W,
    arena: &[f32],
    before: &[f32],
    places: &[u8],
) -> io::Result<()> {
    show::text(out, b"arena=")?;
    if same(arena, before) {
        return show::text(out, b"unchanged\n");
    }
    show_weights::summary(out, arena, places)
}
