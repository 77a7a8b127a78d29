// Totals of items, each by its place.
ghost use Rattle.std.specs.Prelude.{◌≡◌, ℕ};
ghost use Rattle.show.specs.Totals.{total_of};

// The numbers that items count with.
pub trait Numbers {
    type Item: Copy;

    ghost number: { Self.Item → ℕ };

    fn number_of(item: Self::Item) -> u64
        ensures { result ≡ number item };
}

// The 64-bit total of number x (place + 1), wrapping round: from the last place on, each item's number is in the running sum once for
// each place up to its own.
#[tactic(auto, using(crate::proofs::TotalLaws::behind_none, crate::proofs::TotalLaws::behind_more, crate::proofs::TotalLaws::behind_all))]
pub fn total_by<N: Numbers>(items: &[N::Item]) -> u64
    ensures { result ≡ total_of N.number items.now }
{
    let mut running: u64 = 0;
    let mut sum: u64 = 0;
    for item in items.iter().rev() {
        running = running.wrapping_add(N::number_of(*item));
        sum = sum.wrapping_add(running);
    }
    sum
}
