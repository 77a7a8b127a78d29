// What a reading left of samples that all held 77 before, and what they add up to.
ghost use Rattle.std.specs.Int.{w32, cast_unsigned};

use show::Numbers;

// Whether each sample is 77.
pub(crate) fn untouched(samples: &[i32]) -> bool {
    samples.iter().all(|x| *x == 77)
}

// Samples by their bits.
struct Bits;

impl Numbers for Bits {
    type Item = i32;

    ghost number = { cast_unsigned w32 };

    fn number_of(x: i32) -> u64 {
        u64::from(x.cast_unsigned())
    }
}

// The 64-bit total of bits x (place + 1), wrapping round.
pub(crate) fn total(samples: &[i32]) -> u64 {
    show::total_by::<Bits>(samples)
}
