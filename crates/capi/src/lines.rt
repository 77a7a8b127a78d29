// The text record, written and read.
ghost use Rattle.std.specs.Prelude.{◌≡◌, length};
ghost use Rattle.record.specs.Replies.{written_reply, write_answer, buffer_after, taken_reply, read_answer, rows_after, samples_after};
ghost use Rattle.capi.specs.Reply.{returned, held, kept};
ghost use Rattle.capi.specs.Said.{said_of};

use crate::reply::{Said, made, say};
use record::{ReadError, Taken, WriteError, Written};

// The reply of writing a record.
impl From<Written> for Said {
    ghost from_gives = { λ found said. said ≡ said_of (written_reply found) };

    fn from(found: Written) -> Said {
        match found {
            Ok(length) => made(0, length as u64, 0, 0),
            Err(WriteError::Lent) => made(1, 0, 0, 0),
            Err(WriteError::Row { kind }) => made(6, kind as u64, 0, 0),
            Err(WriteError::Room { length }) => made(9, length as u64, 0, 0),
        }
    }
}

// The reply of reading one.
impl From<Taken> for Said {
    ghost from_gives = { λ found said. said ≡ said_of (taken_reply found) };

    fn from(found: Taken) -> Said {
        match found {
            Ok(()) => made(0, 0, 0, 0),
            Err(ReadError::Lent) => made(1, 0, 0, 0),
            Err(ReadError::Room { length }) => made(9, length as u64, 0, 0),
            Err(ReadError::Text { length }) => made(10, length as u64, 0, 0),
        }
    }
}

// Writes the record of a description: all of it, or nothing.
pub fn dequant_write_record(
    rows: &[u16],
    samples: &[i32],
    text: &mut [u8],
    reply: &mut [u64],
) -> u32
    ensures answer { result ≡ returned reply.old (written_reply (write_answer rows.now samples.now (length text.old))) }
    ensures reply { reply.new ≡ held reply.old (written_reply (write_answer rows.now samples.now (length text.old))) }
    ensures text { text.new ≡ kept reply.old (buffer_after rows.now samples.now text.old) text.old }
{
    if reply.len() != 3 {
        return 1;
    }
    let found = record::write_record(rows, samples, text);
    say(found.into(), reply)
}

// Reads a record into rows and samples; a refusal leaves both as they were.
pub fn dequant_read_record(
    text: &[u8],
    rows: &mut [u16],
    samples: &mut [i32],
    reply: &mut [u64],
) -> u32
    ensures answer { result ≡ returned reply.old (taken_reply (read_answer (length rows.old) (length samples.old) text.now)) }
    ensures reply { reply.new ≡ held reply.old (taken_reply (read_answer (length rows.old) (length samples.old) text.now)) }
    ensures rows { rows.new ≡ kept reply.old (rows_after rows.old (length samples.old) text.now) rows.old }
    ensures samples { samples.new ≡ kept reply.old (samples_after (length rows.old) samples.old text.now) samples.old }
{
    if reply.len() != 3 {
        return 1;
    }
    let found = record::read_record(text, rows, samples);
    say(found.into(), reply)
}
