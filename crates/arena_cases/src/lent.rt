// What a case lends: an arena or weights, by a rule.
use show::Case;

// The number with these bits; one NaN for all of theirs.
fn float(bits: u32) -> f32 {
    if bits % 2147483648 > 2139095040 {
        return f32::NAN;
    }
    f32::from_bits(bits)
}

fn put(part: &mut [f32], place: usize, bits: u32) {
    if let Some(x) = part.get_mut(place) {
        *x = float(bits);
    }
}

// The weights that the list has, each after its place; two words for one.
fn put_apart(part: &mut [f32], list: &[u8]) {
    let words = list.len() / 4;
    for pair in list[..4 * words].chunks(8) {
        put(part, show::word(pair, 0) as usize, show::word(pair, 1));
    }
}

// The sum that comes next: at each multiple of 128 the jump is added too.
fn stepped(sum: u32, p: usize, step: u32, jump: u32) -> u32 {
    let next = sum.wrapping_add(step);
    if p % 128 == 127 {
        return next.wrapping_add(jump);
    }
    next
}

// By the rule that begins at word j of a case, base, step, jump and mask: the bits at place p are base + p x step + (p / 128) x jump, by
// 2^32, less those that the mask takes out.
pub(crate) fn fill_by(part: &mut [f32], case: Case, j: u32) {
    let i = j as usize;
    let step = case.word(i + 1);
    let jump = case.word(i + 2);
    let mask = case.word(i + 3);
    let mut sum = case.word(i);
    for (p, x) in part.iter_mut().enumerate() {
        *x = float(sum & mask);
        sum = stepped(sum, p, step, jump);
    }
}

// By the rule that begins at word j of a case, but for the weights that its word k names.
pub(crate) fn fill(part: &mut [f32], case: Case, j: u32, k: u32) {
    fill_by(part, case, j);
    put_apart(part, case.listed(k));
}
