// The calls: a kind added, looked up and dropped.
ghost use Rattle.std.specs.Prelude.{◌≡◌, length};
ghost use Rattle.short_arena.specs.Short.{add_answer, add_state, add_arena, find_answer, shown, drop_answer, drop_state, drop_arena};

use crate::held::{State, lent_right, places_in, start_in};
use transform::Kind;

// Where a kind's weights stand: DONE (0) comes with it where one is added or looked up.
#[derive(Clone, Copy, Debug, PartialEq, Eq)]
pub struct Part {
    pub first: usize,
    pub length: usize,
}

// What a call refuses with: LENT (1), HELD (17), FULL (13) and GONE (18).
#[derive(Clone, Copy, Debug, PartialEq, Eq)]
pub enum ShortError {
    Lent,
    Held,
    Full,
    Gone,
}

// What adding m weights answers, in an arena of n places.
#[tactic(auto, using(crate::proofs::Answers::add_long, crate::proofs::Answers::add_lent, crate::proofs::Lending::lent_counts, crate::proofs::Lending::lent_room, crate::proofs::Answers::judge_held, crate::proofs::Answers::judge_full, crate::proofs::Answers::judge_part))]
fn judge(n: usize, state: &State, kind: usize, m: usize) -> Result<Part, ShortError>
    ensures { result ≡ add_answer n state.now kind m }
{
    let k = Kind { no: kind };
    let length = k.arena_length();
    if m != length || !lent_right(n, state, kind) {
        return Err(ShortError::Lent);
    }
    let held = state.held();
    if held.contains(&kind) {
        return Err(ShortError::Held);
    }
    let first = places_in(held);
    let free = n - first;
    if free < length {
        return Err(ShortError::Full);
    }
    Ok(Part { first, length })
}

// A kind's weights behind those held.
#[tactic(auto, using(crate::proofs::Answers::add_keeps_state, crate::proofs::Answers::add_fits, crate::proofs::Answers::add_behind, crate::proofs::Answers::add_more, crate::proofs::Answers::add_keeps, crate::proofs::Answers::add_puts))]
pub fn add(
    arena: &mut [f32],
    state: &mut State,
    kind: usize,
    weights: &[f32],
) -> Result<Part, ShortError>
    ensures answer { result ≡ add_answer (length arena.old) state.old kind (length weights.now) }
    ensures state { state.new ≡ add_state (length arena.old) state.old kind (length weights.now) }
    ensures arena { arena.new ≡ add_arena arena.old state.old kind weights.now }
{
    let part = judge(arena.len(), state, kind, weights.len())?;
    slices::put(arena, part.first, weights);
    state.add(kind);
    Ok(part)
}

// Whether a kind is held in an arena of n places, and where: behind those added before it.
#[tactic(auto, using(crate::proofs::Lending::lent_counts, crate::proofs::Answers::find_lent, crate::proofs::Answers::find_gone, crate::proofs::Answers::find_part))]
fn find(n: usize, state: &State, kind: usize) -> Result<Part, ShortError>
    ensures { result ≡ find_answer n state.now kind }
{
    if !lent_right(n, state, kind) {
        return Err(ShortError::Lent);
    }
    let first = start_in(state.held(), kind).ok_or(ShortError::Gone)?;
    let k = Kind { no: kind };
    Ok(Part {
        first,
        length: k.arena_length(),
    })
}

// Whether a kind is held, and where.
pub fn lookup_reply(arena: &[f32], state: State, kind: usize) -> Result<Part, ShortError>
    ensures { result ≡ find_answer (length arena.now) state kind }
{
    find(arena.len(), &state, kind)
}

// The weights of a kind, where `lookup_reply` says DONE; else an empty part.
#[tactic(auto, using(crate::proofs::Answers::shows_none, crate::proofs::Answers::shows_ends, crate::proofs::Answers::shows_cut))]
pub fn lookup<'a>(arena: &'a [f32], state: State, kind: usize) -> &'a [f32]
    ensures { result.now ≡ shown arena.now state kind }
{
    let Ok(Part { first, length }) = find(arena.len(), &state, kind) else {
        return &[];
    };
    let end = first + length;
    &arena[first..end]
}

// A kind goes: the later ones move down, and the places that come free at the end become 0.
#[tactic(auto, using(crate::proofs::Answers::drop_refused, crate::proofs::Answers::drop_done, crate::proofs::Answers::drop_keeps_state, crate::proofs::Answers::drop_less, crate::proofs::Answers::drop_counts, crate::proofs::Answers::drop_keeps, crate::proofs::Answers::drop_closes))]
pub fn drop_kind(arena: &mut [f32], state: &mut State, kind: usize) -> Result<(), ShortError>
    ensures answer { result ≡ drop_answer (length arena.old) state.old kind }
    ensures state { state.new ≡ drop_state (length arena.old) state.old kind }
    ensures arena { arena.new ≡ drop_arena arena.old state.old kind }
{
    let Part { first, length } = find(arena.len(), state, kind)?;
    let used = places_in(state.held());
    slices::close(arena, first, length, used);
    state.remove(kind);
    Ok(())
}
