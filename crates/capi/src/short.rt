// The short arena.
ghost use Rattle.std.specs.Prelude.{◌≡◌, [], ◌∷◌, length};
ghost use Rattle.short_arena.specs.Short.{refusal, short_reply, drop_reply, add_answer, add_arena, find_answer, drop_answer, drop_arena};
ghost use Rattle.capi.specs.Bytes.{state_in, add_bytes, drop_bytes};
ghost use Rattle.capi.specs.Reply.{returned, held, kept};
ghost use Rattle.capi.specs.Said.{said_of};

use crate::reply::{Said, made, say};
use crate::state::{put_state, state_of};
use short_arena::{Part, ShortError};

// The reply of adding, and of looking up.
impl From<Result<Part, ShortError>> for Said {
    ghost from_gives = { λ found said. said ≡ said_of (short_reply found) };

    fn from(found: Result<Part, ShortError>) -> Said {
        match found {
            Ok(Part { first, length }) => made(0, first as u64, length as u64, 0),
            Err(refused) => refused.into(),
        }
    }
}

// The reply of dropping.
impl From<Result<(), ShortError>> for Said {
    ghost from_gives = { λ dropped said. said ≡ said_of (drop_reply dropped) };

    fn from(dropped: Result<(), ShortError>) -> Said {
        match dropped {
            Ok(()) => made(0, 0, 0, 0),
            Err(refused) => refused.into(),
        }
    }
}

// A refusal's number, alone.
impl From<ShortError> for Said {
    ghost from_gives = { λ refused said. said ≡ said_of (refusal refused ∷ []) };

    fn from(refused: ShortError) -> Said {
        match refused {
            ShortError::Lent => made(1, 0, 0, 0),
            ShortError::Held => made(17, 0, 0, 0),
            ShortError::Full => made(13, 0, 0, 0),
            ShortError::Gone => made(18, 0, 0, 0),
        }
    }
}

// Adds a kind's weights to a short arena, and says where they stand.
#[tactic(auto, using(crate::proofs::StateBytes::add_small, crate::proofs::StateBytes::add_bytes_lem, crate::proofs::Replies::kept_right))]
pub fn dequant_short_add(
    arena: &mut [f32],
    state: &mut [u8],
    kind: usize,
    weights: &[f32],
    reply: &mut [u64],
) -> u32
    ensures answer { result ≡ returned reply.old (short_reply (add_answer (length arena.old) (state_in state.old) kind (length weights.now))) }
    ensures reply { reply.new ≡ held reply.old (short_reply (add_answer (length arena.old) (state_in state.old) kind (length weights.now))) }
    ensures arena { arena.new ≡ kept reply.old (add_arena arena.old (state_in state.old) kind weights.now) arena.old }
    ensures state { state.new ≡ kept reply.old (add_bytes (length arena.old) state.old kind (length weights.now)) state.old }
{
    if reply.len() != 3 {
        return 1;
    }
    let mut kept = state_of(state);
    let found = short_arena::add(arena, &mut kept, kind, weights);
    put_state(&kept, state);
    say(found.into(), reply)
}

// Says where a kind's weights stand in a short arena.
pub fn dequant_short_lookup(arena: &[f32], state: &[u8], kind: usize, reply: &mut [u64]) -> u32
    ensures answer { result ≡ returned reply.old (short_reply (find_answer (length arena.now) (state_in state.now) kind)) }
    ensures reply { reply.new ≡ held reply.old (short_reply (find_answer (length arena.now) (state_in state.now) kind)) }
{
    if reply.len() != 3 {
        return 1;
    }
    let found = short_arena::lookup_reply(arena, state_of(state), kind);
    say(found.into(), reply)
}

// Drops a kind from a short arena: the later ones move down.
#[tactic(auto, using(crate::proofs::StateBytes::drop_small, crate::proofs::StateBytes::drop_bytes_lem, crate::proofs::Replies::kept_right))]
pub fn dequant_short_drop(
    arena: &mut [f32],
    state: &mut [u8],
    kind: usize,
    reply: &mut [u64],
) -> u32
    ensures answer { result ≡ returned reply.old (drop_reply (drop_answer (length arena.old) (state_in state.old) kind)) }
    ensures reply { reply.new ≡ held reply.old (drop_reply (drop_answer (length arena.old) (state_in state.old) kind)) }
    ensures arena { arena.new ≡ kept reply.old (drop_arena arena.old (state_in state.old) kind) arena.old }
    ensures state { state.new ≡ kept reply.old (drop_bytes (length arena.old) state.old kind) state.old }
{
    if reply.len() != 3 {
        return 1;
    }
    let mut kept = state_of(state);
    let dropped = short_arena::drop_kind(arena, &mut kept, kind);
    put_state(&kept, state);
    say(dropped.into(), reply)
}
