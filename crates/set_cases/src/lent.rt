// What a case lends: its samples.
use show::Case;

fn put_sample(samples: &mut [i32], place: usize, value: i32) {
    if let Some(sample) = samples.get_mut(place) {
        *sample = value;
    }
}

// The samples that the list has, each after its place; two words for one.
fn put_samples(list: &[u8], samples: &mut [i32]) {
    for both in list.chunks(8) {
        put_sample(
            samples,
            show::word(both, 0) as usize,
            show::signed(show::word(both, 1)),
        );
    }
}

// The samples by their rule, then those that stand apart from it.
pub(crate) fn fill(samples: &mut [i32], case: Case) {
    case.fill_by_rule(samples);
    put_samples(case.listed(17), samples);
}
