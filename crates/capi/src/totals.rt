// The total beside an arena.
ghost use Rattle.std.specs.Prelude.{◌≡◌};
ghost use Rattle.total.specs.Total.{total_reply, total_answer, replace_answer, replace_arena};
ghost use Rattle.capi.specs.Reply.{returned, held, kept};
ghost use Rattle.capi.specs.Said.{said_of};

use crate::reply::{Said, made, say};
use total::{Lent, Total};

// A total's reply.
impl From<Total> for Said {
    ghost from_gives = { λ found said. said ≡ said_of (total_reply found) };

    fn from(found: Total) -> Said {
        match found {
            Ok(total) => made(0, total, 0, 0),
            Err(Lent) => made(1, 0, 0, 0),
        }
    }
}

// Says the total of a stretch of an arena: of `count` places from `first` on.
pub fn dequant_total(arena: &[f32], first: usize, count: usize, reply: &mut [u64]) -> u32
    ensures answer { result ≡ returned reply.old (total_reply (total_answer arena.now first count)) }
    ensures reply { reply.new ≡ held reply.old (total_reply (total_answer arena.now first count)) }
{
    if reply.len() != 3 {
        return 1;
    }
    let found = total::stretch_total(arena, first, count);
    say(found.into(), reply)
}

// Replaces one kind's weights, and says the total that the arena then has if it had the one that is lent.
pub fn dequant_replace_kind(
    arena: &mut [f32],
    total: u64,
    kind: usize,
    weights: &[f32],
    reply: &mut [u64],
) -> u32
    ensures answer { result ≡ returned reply.old (total_reply (replace_answer arena.old total kind weights.now)) }
    ensures reply { reply.new ≡ held reply.old (total_reply (replace_answer arena.old total kind weights.now)) }
    ensures arena { arena.new ≡ kept reply.old (replace_arena arena.old kind weights.now) arena.old }
{
    if reply.len() != 3 {
        return 1;
    }
    let found = total::replace_kind(arena, total, kind, weights);
    say(found.into(), reply)
}
