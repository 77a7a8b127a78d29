// Reading a header.
ghost use Rattle.std.specs.Prelude.{◌≡◌};
ghost use Rattle.params.specs.Header.{read_header, reply_of};
ghost use Rattle.capi.specs.Reply.{returned, held, kept};
ghost use Rattle.capi.specs.Said.{said_of};

use crate::reply::{Said, made, say};
use params::{HeaderError, Reading, Stop};

// The reply of reading a header.
impl From<Reading> for Said {
    ghost from_gives = { λ found said. said ≡ said_of (reply_of found) };

    fn from(found: Reading) -> Said {
        match found {
            Ok(Stop::Done { next }) => made(0, next, 0, 0),
            Ok(Stop::Raw { kind, next }) => made(5, kind as u64, next, 0),
            Err(HeaderError::Lent) => made(1, 0, 0, 0),
            Err(HeaderError::Short { kind, bit, lacks }) => made(2, kind as u64, bit, lacks),
            Err(HeaderError::Mode { kind, bit }) => made(3, kind as u64, bit, 0),
            Err(HeaderError::Float { kind, bit }) => made(4, kind as u64, bit, 0),
        }
    }
}

// Reads a header from a bit into 2,176 row numbers: at kind 0 from the flag, at another kind from its mode.
pub fn dequant_read_header(
    header: &[u8],
    bit: u64,
    kind: usize,
    rows: &mut [u16],
    reply: &mut [u64],
) -> u32
    ensures { (result ≡ returned reply.old (reply_of (read_header header.now bit kind rows.old).answer))
        × (reply.new ≡ held reply.old (reply_of (read_header header.now bit kind rows.old).answer))
        × (rows.new ≡ kept reply.old (read_header header.now bit kind rows.old).rows rows.old) }
{
    if reply.len() != 3 {
        return 1;
    }
    let found = params::read_header(header, bit, kind, rows);
    say(found.into(), reply)
}
