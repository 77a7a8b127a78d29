// What `quantlist` writes of a header. It only writes, and has no contract (docs/DECISIONS.md, 21).
#![tactic(auto)]

use std::io;
use std::io::Write;

// The record of rows that were read without raw kinds. It has at most 7,079 bytes, so writing it is never refused here: `listed`, crate
// promises.
fn show_rows<W: Write>(out: &mut W, rows: &[u16]) -> io::Result<()> {
    let mut text = [0u8; 8192];
    match record::write_record(rows, &[], &mut text) {
        Ok(length) => show::text(out, show::first(&text, length)),
        Err(_) => Ok(()),
    }
}

// The record of a header without raw kinds, or the lines of what refuses it.
pub fn quantlist<W: Write>(out: &mut W, header: &[u8]) -> io::Result<()> {
    let mut rows = [0u16; 2176];
    let r = params::read_header(header, 0, 0, &mut rows);
    if show::is_refused(r) {
        show::refused(out, r)
    } else {
        show_rows(out, &rows)
    }
}
