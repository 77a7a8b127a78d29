// What is written into a lent slice of weights: others laid in from a place on, and a stretch closed up.
#![tactic(auto)]

ghost use Rattle.std.specs.Prelude.{◌≡◌};
ghost use Rattle.slices.specs.Slices.{put_leaves, close_leaves};

// Weights into an arena, from a place on. Where they don't fit nothing changes.
#[tactic(auto, using(crate::proofs::Laws::put_stays))]
pub fn put(arena: &mut [f32], at: usize, weights: &[f32])
    ensures { arena.new ≡ put_leaves arena.old at weights.now }
{
    if at > arena.len() || weights.len() > arena.len() - at {
        return;
    }
    // Weight by weight: for `copy_from_slice` the library would call `memmove`, which a caller in C need not have.
    for i in 0..weights.len() {
        arena[at + i] = weights[i];
    }
}

// Of the first `end` places n go, from a place on: those behind move down, and the places that come free become 0.
// Where there are no such places nothing changes.
#[tactic(auto, using(crate::proofs::Laws::close_beyond, crate::proofs::Laws::close_none, crate::proofs::Laws::close_all))]
pub fn close(arena: &mut [f32], at: usize, n: usize, end: usize)
    ensures { arena.new ≡ close_leaves arena.old at n end }
{
    if end > arena.len() || at > end || n > end - at {
        return;
    }
    let free = end - n;
    arena.copy_within(at + n..end, at);
    arena[free..end].fill(0.0);
}
