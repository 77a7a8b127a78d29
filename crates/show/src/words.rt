// Numbers of an input: words of four bytes, the lowest first.
ghost use Rattle.std.specs.Prelude.{◌≡◌};
ghost use Rattle.show.specs.Input.{word_at};

// The word number j, or 0 where it isn't there.
#[tactic(auto, unfolding(crate::specs::Input::word_at))]
pub fn word(s: &[u8], j: usize) -> u32
    ensures { result ≡ word_at s.now j }
{
    if j < s.len() / 4 {
        return u32::from_le_bytes([s[4 * j], s[4 * j + 1], s[4 * j + 2], s[4 * j + 3]]);
    }
    0
}
