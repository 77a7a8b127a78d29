// Parts of slices.
ghost use Rattle.std.specs.Prelude.{◌≡◌, drop};
ghost use Rattle.show.specs.Input.{first_of};

// The bytes from `at` on.
pub fn rest<'a>(s: &'a [u8], at: usize) -> &'a [u8]
    ensures { result.now ≡ drop at s.now }
{
    if s.len() < at {
        return &s[..0];
    }
    &s[at..]
}

// The first n items, or none where there are fewer.
#[tactic(auto, using(crate::proofs::Laws::first_none, crate::proofs::Laws::first_some))]
pub fn first<T>(s: &[T], n: usize) -> &[T]
    ensures { result.now ≡ first_of n s.now }
{
    if s.len() < n {
        return &s[..0];
    }
    &s[0..n]
}

// The first n items to be written, or none where there are fewer. What the slice ends as isn't said, as of std's `get_mut`.
#[tactic(auto, using(crate::proofs::Laws::first_none, crate::proofs::Laws::first_some))]
pub fn first_mut<T>(part: &mut [T], n: usize) -> &mut [T]
    ensures { result.now ≡ first_of n part.old }
{
    if part.len() < n {
        return &mut part[..0];
    }
    &mut part[0..n]
}
