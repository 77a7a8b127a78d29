// Reading a header.
ghost use Rattle.std.specs.Prelude.{◌≡◌};
ghost use Rattle.params.specs.Header.{read_header, reply_of};
ghost use Rattle.capi.specs.Reply.{returned, held, kept};

// Reads a header from a bit into 2,176 row numbers: at kind 0 from the flag, at another kind from its mode.
#[unsafe(no_mangle)]
pub extern "C" fn dequant_read_header(
    header: &[u8],
    bit: u64,
    kind: usize,
    rows: &mut [u16],
    reply: &mut [u64],
) -> u32
    ensures { (result ≡ returned reply.old (reply_of (read_header header.now bit kind rows.old).answer))
        × (reply.new ≡ held reply.old (reply_of (read_header header.now bit kind rows.old).answer))
        × (rows.new ≡ kept reply.old (read_header header.now bit kind rows.old).rows rows.old) }
{
    capi::dequant_read_header(header, bit, kind, rows, reply)
}
