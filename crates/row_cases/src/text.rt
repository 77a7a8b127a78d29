// The buffer that records are written in.
use show::Numbers;

// Whether each byte is Z.
pub(crate) fn untouched(s: &[u8]) -> bool {
    s.iter().all(|x| *x == b'Z')
}

// Bytes as they are.
struct Plain;

impl Numbers for Plain {
    type Item = u8;

    ghost number = { λ x. x };

    fn number_of(x: u8) -> u64 {
        u64::from(x)
    }
}

// The 64-bit total of byte x (place + 1), wrapping round.
pub(crate) fn total(s: &[u8]) -> u64 {
    show::total_by::<Plain>(s)
}
