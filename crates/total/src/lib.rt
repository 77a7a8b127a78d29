// The total beside an arena: one 64-bit number for its weights, wrapping round.
#![tactic(auto)]

ghost use Rattle.std.specs.Prelude.{◌≡◌, ◌+◌, ◌≤◌, length, to_bits};
ghost use Rattle.std.specs.Float.{binary32};
ghost use Rattle.total.specs.Total.{total_from, total_answer, part_right, replace_answer, replace_arena};

use transform::Kind;

// LENT (1): what is lent is wrong.
#[derive(Clone, Copy, Debug, PartialEq, Eq)]
pub struct Lent;

// What a call answers: DONE (0) with a total, or LENT.
pub type Total = Result<u64, Lent>;

// What a NaN counts with, as the logic's `to_bits` has it.
const NAN_BITS: u32 = 0x7fc00000;

// A weight's bits; those of a NaN are 7fc00000.
#[tactic(auto, using(crate::proofs::Laws::nan_bits))]
pub fn bits(x: f32) -> u32
    ensures { result ≡ to_bits binary32 x }
{
    if x.is_nan() {
        return NAN_BITS;
    }
    x.to_bits()
}

// The total of a part whose first place is `first`. No product wraps round, their sum may.
#[tactic(auto, using(crate::proofs::Laws::product_le, crate::proofs::Laws::total_none, crate::proofs::Laws::total_next, crate::proofs::Laws::total_all))]
fn part_total(part: &[f32], first: usize) -> u64
    requires { first + length part.now ≤ 394752 }
    ensures { result ≡ total_from first part.now }
{
    let mut total: u64 = 0;
    for (i, x) in part.iter().enumerate() {
        let place = first + i;
        let product = u64::from(bits(*x)) * (place + 1) as u64;
        total = total.wrapping_add(product);
    }
    total
}

// The total of a stretch: of `count` places from `first` on. LENT for another arena, or a stretch that leaves it.
#[tactic(auto, using(crate::proofs::Answers::other_arena, crate::proofs::Answers::outside, crate::proofs::Answers::cut_counted))]
pub fn stretch_total(arena: &[f32], first: usize, count: usize) -> Total
    ensures { result ≡ total_answer arena.now first count }
{
    if arena.len() != Kind::ARENA || first > Kind::ARENA || count > Kind::ARENA - first {
        return Err(Lent);
    }
    let end = first + count;
    Ok(part_total(&arena[first..end], first))
}

// Whether an arena of n places, a kind and m weights to replace its part by are lent right.
#[tactic(auto, using(crate::proofs::Answers::right_arena, crate::proofs::Answers::right_kind, crate::proofs::Answers::right_weights))]
fn part_right(n: usize, kind: usize, m: usize) -> bool
    ensures { result ≡ part_right n kind m }
{
    let k = Kind { no: kind };
    n == Kind::ARENA && kind < Kind::COUNT && m == k.arena_length()
}

// A kind's weights replaced, and the arena's total with them. LENT leaves the arena as it was.
#[tactic(auto, using(crate::proofs::Answers::right_ends, crate::proofs::Answers::right_size, crate::proofs::Answers::replace_lent, crate::proofs::Answers::arena_kept, crate::proofs::Answers::replace_counts, crate::proofs::Answers::put_is))]
pub fn replace_kind(arena: &mut [f32], total: u64, kind: usize, weights: &[f32]) -> Total
    ensures answer { result ≡ replace_answer arena.old total kind weights.now }
    ensures arena { arena.new ≡ replace_arena arena.old kind weights.now }
{
    if !part_right(arena.len(), kind, weights.len()) {
        return Err(Lent);
    }
    let k = Kind { no: kind };
    let at = k.arena_start();
    let end = at + weights.len();
    let old = part_total(&arena[at..end], at);
    let new = part_total(weights, at);
    slices::put(arena, at, weights);
    Ok(total.wrapping_sub(old).wrapping_add(new))
}
