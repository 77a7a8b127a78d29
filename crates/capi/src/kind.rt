// Expanding one kind.
ghost use Rattle.std.specs.Prelude.{◌≡◌, length};
ghost use Rattle.matrix.specs.Expanded.{expand_answer, leaves, reply_of};
ghost use Rattle.matrix.specs.Mirror.{mirror};
ghost use Rattle.matrix.specs.Weight.{weights_of};
ghost use Rattle.capi.specs.Said.{said_of};
ghost use Rattle.capi.specs.Reply.{returned, held, kept};

use crate::reply::{Said, made, say};
use matrix::{ExpandError, Expanded};

// The reply of expanding, one kind or all.
impl From<Expanded> for Said {
    ghost from_gives = { λ found said. said ≡ said_of (reply_of found) };

    fn from(found: Expanded) -> Said {
        match found {
            Ok(()) => made(0, 0, 0, 0),
            Err(ExpandError::Lent) => made(1, 0, 0, 0),
            Err(ExpandError::Row { kind }) => made(6, kind as u64, 0, 0),
            Err(
                ExpandError::Band {
                    kind,
                    channel,
                    band,
                },
            ) => made(7, kind as u64, channel as u64, band as u64),
            Err(
                ExpandError::Weight {
                    kind,
                    channel,
                    place,
                },
            ) => made(8, kind as u64, channel as u64, place as u64),
            Err(ExpandError::Denom { kind }) => made(12, kind as u64, 0, 0),
        }
    }
}

// Expands one kind from its own row of 128 and, where it is raw, its samples.
pub fn dequant_expand_kind(
    kind: usize,
    row: &[u16],
    samples: &[i32],
    straight: &mut [f32],
    transposed: &mut [f32],
    reply: &mut [u64],
) -> u32
    ensures answer { result ≡ returned reply.old (reply_of (expand_answer kind row.now samples.now (length straight.old) (length transposed.old))) }
    ensures reply { reply.new ≡ held reply.old (reply_of (expand_answer kind row.now samples.now (length straight.old) (length transposed.old))) }
    ensures straight { straight.new ≡ kept reply.old (leaves (expand_answer kind row.now samples.now (length straight.old) (length transposed.old)) (weights_of row.now samples.now kind) straight.old) straight.old }
    ensures transposed { transposed.new ≡ kept reply.old (leaves (expand_answer kind row.now samples.now (length straight.old) (length transposed.old)) (mirror kind (weights_of row.now samples.now kind)) transposed.old) transposed.old }
{
    if reply.len() != 3 {
        return 1;
    }
    let found = matrix::expand_kind(kind, row, samples, straight, transposed);
    say(found.into(), reply)
}
