// The total beside an arena.
ghost use Rattle.std.specs.Prelude.{◌≡◌};
ghost use Rattle.total.specs.Total.{total_reply, total_answer, replace_answer, replace_arena};
ghost use Rattle.capi.specs.Reply.{returned, held, kept};

// Says the total of a stretch of an arena: of `count` places from `first` on.
#[unsafe(no_mangle)]
pub extern "C" fn dequant_total(arena: &[f32], first: usize, count: usize, reply: &mut [u64]) -> u32
    ensures answer { result ≡ returned reply.old (total_reply (total_answer arena.now first count)) }
    ensures reply { reply.new ≡ held reply.old (total_reply (total_answer arena.now first count)) }
{
    capi::dequant_total(arena, first, count, reply)
}

// Replaces one kind's weights, and says the total that the arena then has if it had the one that is lent.
#[unsafe(no_mangle)]
pub extern "C" fn dequant_replace_kind(
    arena: &mut [f32],
    total: u64,
    kind: usize,
    weights: &[f32],
    reply: &mut [u64],
) -> u32
    ensures answer { result ≡ returned reply.old (total_reply (replace_answer arena.old total kind weights.now)) }
    ensures reply { reply.new ≡ held reply.old (total_reply (replace_answer arena.old total kind weights.now)) }
    ensures arena { arena.new ≡ kept reply.old (replace_arena arena.old kind weights.now) arena.old }
{
    capi::dequant_replace_kind(arena, total, kind, weights, reply)
}
