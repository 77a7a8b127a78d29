// Where a lookup's part stands.
ghost use Rattle.std.specs.Prelude.{◌≡◌, length};
ghost use Rattle.capi.specs.Parts.{arena_no, lookup_reply};
ghost use Rattle.capi.specs.Reply.{returned, held};
ghost use Rattle.capi.specs.Said.{said_of};

use crate::reply::{Said, made, say};
use transform::Kind;

// The straight arena only where it is named.
fn arena_no(order: u32) -> u64
    ensures { result ≡ arena_no order }
{
    u64::from(order != 1)
}

// The part of a channel, in arenas of lengths s and t.
#[tactic(auto, using(dequant::proofs::Parts::is_found, dequant::proofs::Parts::span_end), unfolding(crate::specs::Parts::lookup_reply))]
fn said_part(s: usize, t: usize, kind: usize, channel: usize, order: u32) -> Said
    ensures { result ≡ said_of (lookup_reply s t kind channel order) }
{
    if order > 2 || !dequant::names(kind, channel, s, t) {
        return made(1, 0, 0, 0);
    }
    let k = Kind { no: kind };
    let area = k.area();
    let first = k.arena_start() + channel * area;
    made(0, arena_no(order), first as u64, area as u64)
}

// Says where one channel of a kind stands in the order named: 0 none, which shows what 2 does, 1 straight, 2 transposed. A slice cannot be handed to C, its numbers can.
pub fn dequant_lookup(
    straight: &[f32],
    transposed: &[f32],
    kind: usize,
    channel: usize,
    order: u32,
    reply: &mut [u64],
) -> u32
    ensures { (result ≡ returned reply.old (lookup_reply (length straight.now) (length transposed.now) kind channel order))
        × (reply.new ≡ held reply.old (lookup_reply (length straight.now) (length transposed.now) kind channel order)) }
{
    if reply.len() != 3 {
        return 1;
    }
    say(
        said_part(straight.len(), transposed.len(), kind, channel, order),
        reply,
    )
}
