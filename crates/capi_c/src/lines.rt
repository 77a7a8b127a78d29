// The text record, written and read.
ghost use Rattle.std.specs.Prelude.{◌≡◌, length};
ghost use Rattle.record.specs.Replies.{written_reply, write_answer, buffer_after, taken_reply, read_answer, rows_after, samples_after};
ghost use Rattle.capi.specs.Reply.{returned, held, kept};

// Writes the record of a description: all of it, or nothing.
#[unsafe(no_mangle)]
pub extern "C" fn dequant_write_record(
    rows: &[u16],
    samples: &[i32],
    text: &mut [u8],
    reply: &mut [u64],
) -> u32
    ensures answer { result ≡ returned reply.old (written_reply (write_answer rows.now samples.now (length text.old))) }
    ensures reply { reply.new ≡ held reply.old (written_reply (write_answer rows.now samples.now (length text.old))) }
    ensures text { text.new ≡ kept reply.old (buffer_after rows.now samples.now text.old) text.old }
{
    capi::dequant_write_record(rows, samples, text, reply)
}

// Reads a record into rows and samples; a refusal leaves both as they were.
#[unsafe(no_mangle)]
pub extern "C" fn dequant_read_record(
    text: &[u8],
    rows: &mut [u16],
    samples: &mut [i32],
    reply: &mut [u64],
) -> u32
    ensures answer { result ≡ returned reply.old (taken_reply (read_answer (length rows.old) (length samples.old) text.now)) }
    ensures reply { reply.new ≡ held reply.old (taken_reply (read_answer (length rows.old) (length samples.old) text.now)) }
    ensures rows { rows.new ≡ kept reply.old (rows_after rows.old (length samples.old) text.now) rows.old }
    ensures samples { samples.new ≡ kept reply.old (samples_after (length rows.old) samples.old text.now) samples.old }
{
    capi::dequant_read_record(text, rows, samples, reply)
}
