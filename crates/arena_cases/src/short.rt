// Calls on a short arena, one after another, each handed the arena and the state that the last one left.
use crate::lent::fill_by;
use crate::shown::show_total;
use short_arena::{Part, ShortError, State};
use show::Case;
use std::io::Write;
use std::{array, io};

// The words of a call, by their numbers: which it is, the kind in two words, how many weights are lent, and their rule.
const WHICH: usize = 0;

const KIND: u32 = 1;

const LENGTH: usize = 3;

const RULE: u32 = 4;

// The bytes of a call.
const CALL: usize = 32;

// Which call: a kind is added, looked up, or else dropped.
const ADD: u32 = 0;

const LOOKUP: u32 = 1;

// A refusal's number.
fn number_of(refused: ShortError) -> u64 {
    match refused {
        ShortError::Lent => 1,
        ShortError::Held => 17,
        ShortError::Full => 13,
        ShortError::Gone => 18,
    }
}

// An answer: DONE, with a part or without, or a refusal.
fn answer<W: Write>(out: &mut W, a: Result<Option<Part>, ShortError>) -> io::Result<()> {
    match a {
        Ok(Some(Part { first, length })) => {
            show::decimal(out, 0)?;
            show::next(out, first as u64)?;
            show::next(out, length as u64)
        }
        Ok(None) => show::decimal(out, 0),
        Err(refused) => show::decimal(out, number_of(refused)),
    }
}

fn show_answer<W: Write>(out: &mut W, a: Result<Option<Part>, ShortError>) -> io::Result<()> {
    show::text(out, b"reply=")?;
    answer(out, a)?;
    show::end(out)
}

// The state in a list of 18 words.
fn state_of(list: &[u8]) -> State {
    State {
        count: show::word(list, 0) as usize,
        kinds: array::from_fn(|i| show::word(list, i + 1) as usize),
    }
}

fn show_state<W: Write>(out: &mut W, state: &State) -> io::Result<()> {
    show::text(out, b"state=")?;
    show::decimal(out, state.count as u64)?;
    for k in &state.kinds {
        show::comma(out)?;
        show::decimal(out, *k as u64)?;
    }
    show::end(out)
}

fn add<W: Write>(
    out: &mut W,
    own: Case,
    arena: &mut [f32],
    state: &mut State,
    weights: &mut [f32],
) -> io::Result<()> {
    fill_by(weights, own, RULE);
    let m = own.field(LENGTH);
    if weights.len() < m {
        return Ok(());
    }
    let added = short_arena::add(arena, state, own.number(KIND) as usize, &weights[0..m]);
    show_answer(out, added.map(Some))
}

fn lookup<W: Write>(out: &mut W, own: Case, arena: &[f32], state: &State) -> io::Result<()> {
    let kind = own.number(KIND) as usize;
    show_answer(
        out,
        short_arena::lookup_reply(arena, *state, kind).map(Some),
    )?;
    show_total(out, short_arena::lookup(arena, *state, kind))
}

fn drop_kind<W: Write>(
    out: &mut W,
    own: Case,
    arena: &mut [f32],
    state: &mut State,
) -> io::Result<()> {
    let dropped = short_arena::drop_kind(arena, state, own.number(KIND) as usize);
    show_answer(out, dropped.map(|()| None))
}

fn call<W: Write>(
    out: &mut W,
    own: Case,
    arena: &mut [f32],
    state: &mut State,
    weights: &mut [f32],
) -> io::Result<()> {
    match own.word(WHICH) {
        ADD => add(out, own, arena, state, weights),
        LOOKUP => lookup(out, own, arena, state),
        _ => drop_kind(out, own, arena, state),
    }
}

// The calls of a list from the state in another on, and the state after them, with room for the weights of one call.
pub(crate) fn run<W: Write>(
    out: &mut W,
    list: &[u8],
    state: &[u8],
    arena: &mut [f32],
    weights: &mut [f32],
) -> io::Result<()> {
    let mut last = state_of(state);
    for own in list.chunks_exact(CALL) {
        call(out, Case::new(own, 0), arena, &mut last, weights)?;
    }
    show_state(out, &last)
}
