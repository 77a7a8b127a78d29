// The short arena.
ghost use Rattle.std.specs.Prelude.{◌≡◌, length};
ghost use Rattle.short_arena.specs.Short.{short_reply, drop_reply, add_answer, add_arena, find_answer, drop_answer, drop_arena};
ghost use Rattle.capi.specs.Bytes.{state_in, add_bytes, drop_bytes};
ghost use Rattle.capi.specs.Reply.{returned, held, kept};

// Adds a kind's weights to a short arena, and says where they stand.
#[unsafe(no_mangle)]
pub extern "C" fn dequant_short_add(
    arena: &mut [f32],
    state: &mut [u8],
    kind: usize,
    weights: &[f32],
    reply: &mut [u64],
) -> u32
    ensures answer { result ≡ returned reply.old (short_reply (add_answer (length arena.old) (state_in state.old) kind (length weights.now))) }
    ensures reply { reply.new ≡ held reply.old (short_reply (add_answer (length arena.old) (state_in state.old) kind (length weights.now))) }
    ensures arena { arena.new ≡ kept reply.old (add_arena arena.old (state_in state.old) kind weights.now) arena.old }
    ensures state { state.new ≡ kept reply.old (add_bytes (length arena.old) state.old kind (length weights.now)) state.old }
{
    capi::dequant_short_add(arena, state, kind, weights, reply)
}

// Says where a kind's weights stand in a short arena.
#[unsafe(no_mangle)]
pub extern "C" fn dequant_short_lookup(
    arena: &[f32],
    state: &[u8],
    kind: usize,
    reply: &mut [u64],
) -> u32
    ensures answer { result ≡ returned reply.old (short_reply (find_answer (length arena.now) (state_in state.now) kind)) }
    ensures reply { reply.new ≡ held reply.old (short_reply (find_answer (length arena.now) (state_in state.now) kind)) }
{
    capi::dequant_short_lookup(arena, state, kind, reply)
}

// Drops a kind from a short arena: the later ones move down.
#[unsafe(no_mangle)]
pub extern "C" fn dequant_short_drop(
    arena: &mut [f32],
    state: &mut [u8],
    kind: usize,
    reply: &mut [u64],
) -> u32
    ensures answer { result ≡ returned reply.old (drop_reply (drop_answer (length arena.old) (state_in state.old) kind)) }
    ensures reply { reply.new ≡ held reply.old (drop_reply (drop_answer (length arena.old) (state_in state.old) kind)) }
    ensures arena { arena.new ≡ kept reply.old (drop_arena arena.old (state_in state.old) kind) arena.old }
    ensures state { state.new ≡ kept reply.old (drop_bytes (length arena.old) state.old kind) state.old }
{
    capi::dequant_short_drop(arena, state, kind, reply)
}
