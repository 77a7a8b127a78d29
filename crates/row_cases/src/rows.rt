// What a reading left of rows that all held abcd before.
use std::io;
use std::io::Write;

// Whether each number is abcd.
fn untouched(rows: &[u16]) -> bool {
    rows.iter().all(|x| *x == 0xabcd)
}

// A row that was written.
fn touched_row<W: Write>(out: &mut W, kind: usize, numbers: &[u16]) -> io::Result<()> {
    if !untouched(numbers) {
        show::row(out, kind, numbers)?;
    }
    Ok(())
}

fn touched_rows<W: Write>(out: &mut W, rows: &[u16]) -> io::Result<()> {
    for (kind, numbers) in rows.chunks_exact(128).take(17).enumerate() {
        touched_row(out, kind, numbers)?;
    }
    Ok(())
}

// Each row that was written, of rows that held abcd before.
pub(crate) fn show_rows<W: Write>(out: &mut W, rows: &[u16]) -> io::Result<()> {
    if untouched(rows) {
        return show::text(out, b"rows=unchanged\n");
    }
    touched_rows(out, rows)
}
