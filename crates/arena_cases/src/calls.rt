// The calls on what a case names.
use crate::lent::fill;
use crate::short;
use crate::shown::{show_arena, show_reply};
use show::Case;
use std::io;
use std::io::Write;

// The words of a case, by their numbers: the call, lengths, rules with their lists of weights apart, places, numbers of two words, and a
// short arena's state and calls.
const CALL: usize = 2;

const ARENA_LENGTH: usize = 3;

const ARENA_RULE: u32 = 4;

const ARENA_APART: u32 = 8;

const WEIGHTS_LENGTH: usize = 10;

const WEIGHTS_RULE: u32 = 11;

const WEIGHTS_APART: u32 = 15;

const PLACES: u32 = 17;

const FIRST: u32 = 19;

const COUNT: u32 = 21;

const TOTAL: u32 = 23;

const KIND: u32 = 25;

const STATE: u32 = 27;

const OPS: u32 = 29;

// Which call a case names, by its number; each other number is that of the last.
enum Which {
    Total,
    Replace,
    Keep,
}

impl From<usize> for Which {
    fn from(n: usize) -> Which {
        match n {
            0 => Which::Total,
            1 => Which::Replace,
            _ => Which::Keep,
        }
    }
}

fn count<W: Write>(out: &mut W, case: Case, arena: &[f32]) -> io::Result<()> {
    show_reply(
        out,
        total::stretch_total(
            arena,
            case.number(FIRST) as usize,
            case.number(COUNT) as usize,
        ),
    )
}

fn replace<W: Write>(
    out: &mut W,
    case: Case,
    arena: &mut [f32],
    before: &[f32],
    weights: &[f32],
) -> io::Result<()> {
    show_reply(
        out,
        total::replace_kind(
            arena,
            case.number(TOTAL),
            case.number(KIND) as usize,
            weights,
        ),
    )?;
    show_arena(out, arena, before, case.listed(PLACES))
}

fn keep<W: Write>(
    out: &mut W,
    case: Case,
    arena: &mut [f32],
    before: &[f32],
    weights: &mut [f32],
) -> io::Result<()> {
    short::run(out, case.listed(OPS), case.listed(STATE), arena, weights)?;
    show_arena(out, arena, before, case.listed(PLACES))
}

fn cut_call<W: Write>(
    out: &mut W,
    case: Case,
    arena: &mut [f32],
    before: &[f32],
    weights: &mut [f32],
) -> io::Result<()> {
    let m = case.field(WEIGHTS_LENGTH);
    if weights.len() < m {
        return Ok(());
    }
    match Which::from(case.field(CALL)) {
        Which::Total => count(out, case, arena),
        Which::Replace => replace(out, case, arena, before, &weights[..m]),
        Which::Keep => keep(out, case, arena, before, weights),
    }
}

// The arena twice, so that it is known what it was, and the weights, each by its rule and as long as the case says.
fn filled_call<W: Write>(
    out: &mut W,
    case: Case,
    arena: &mut [f32],
    before: &mut [f32],
    weights: &mut [f32],
) -> io::Result<()> {
    fill(arena, case, ARENA_RULE, ARENA_APART);
    fill(before, case, ARENA_RULE, ARENA_APART);
    fill(weights, case, WEIGHTS_RULE, WEIGHTS_APART);
    let n = case.field(ARENA_LENGTH);
    if arena.len() < n || before.len() < n {
        return Ok(());
    }
    cut_call(out, case, &mut arena[..n], &before[..n], weights)
}

// The call that a case names. An arena may be lent one place too long.
pub(crate) fn call<W: Write>(out: &mut W, case: Case) -> io::Result<()> {
    let mut arena = [0.0f32; 394753];
    let mut before = [0.0f32; 394753];
    let mut weights = [0.0f32; 196608];
    filled_call(out, case, &mut arena, &mut before, &mut weights)
}
