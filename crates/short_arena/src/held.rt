// The kinds that a short arena holds.
ghost use Rattle.std.specs.Prelude.{cond, ◌≡◌, true, [], ◌∷◌, ◌++◌, ◌≤◌, ◌<◌, length, drop};
ghost use Rattle.short_arena.specs.Held.{held_of, state_of, is_held, single, places_in, start_in, without};
ghost use Rattle.transform.specs.Zeros.{all_zero};
ghost use Rattle.short_arena.specs.Short.{lent_right};

use transform::Kind;

// How many kinds are held, and which, in the order added; 0 behind them.
#[derive(Clone, Copy)]
pub struct State {
    pub count: usize,
    pub kinds: [usize; 17],
}

impl State {
    // The kinds held.
    pub(crate) fn held(&self) -> &[usize]
        requires { self.now.count ≤ 17 }
        ensures kinds { result.now ≡ held_of self.now }
        ensures count { length result.now ≡ self.now.count }
    {
        &self.kinds[..self.count]
    }

    // One kind more.
    #[tactic(auto, using(crate::proofs::States::state_more))]
    pub(crate) fn add(&mut self, kind: usize)
        requires { (self.old.count < 17) × (all_zero (drop self.old.count self.old.kinds) ≡ true) }
        ensures { self.new ≡ state_of (held_of self.old ++ kind ∷ []) }
    {
        self.kinds[self.count] = kind;
        self.count += 1;
    }

    // One kind fewer: the others, in their order.
    pub(crate) fn remove(&mut self, kind: usize)
        requires { self.old.count ≤ 17 }
        ensures { self.new ≡ state_of (without (held_of self.old) kind) }
    {
        let mut kinds = [0usize; 17];
        let mut n = 0;
        for k in self.held() {
            if *k != kind {
                kinds[n] = *k;
                n += 1;
            }
        }
        *self = State { count: n, kinds };
    }
}

// Whether each is a kind and none is there twice.
#[tactic(auto, using(crate::proofs::Turns::single_far, crate::proofs::Turns::single_twice, crate::proofs::Turns::single_on, crate::proofs::Turns::single_none))]
fn are_single(held: &[usize]) -> bool
    ensures { result ≡ single held.now }
{
    for (i, k) in held.iter().enumerate() {
        if *k >= Kind::COUNT || held[i + 1..].contains(k) {
            return false;
        }
    }
    true
}

// The places that they need.
pub(crate) fn places_in(held: &[usize]) -> usize
    requires { length held.now ≤ 17 }
    ensures { result ≡ places_in held.now }
{
    held.iter().map(|k| Kind { no: *k }.arena_length()).sum()
}

// Where a kind starts, if it is held: behind those added before it.
pub(crate) fn start_in(held: &[usize], kind: usize) -> Option<usize>
    requires { length held.now ≤ 17 }
    ensures { result ≡ cond (is_held held.now kind) (Some (start_in held.now kind)) None }
{
    let i = held.iter().position(|k| *k == kind)?;
    Some(places_in(&held[..i]))
}

// Whether nothing but 0 stands there.
fn all_zero(l: &[usize]) -> bool
    ensures { result ≡ all_zero l.now }
{
    l.iter().all(|x| *x == 0)
}

// Whether a kind is asked for, in an arena of n places and with a state that such an arena can have.
#[tactic(auto, using(crate::proofs::Lending::no_kind, crate::proofs::Lending::no_arena, crate::proofs::Lending::no_count, crate::proofs::Lending::not_single, crate::proofs::Lending::no_room, crate::proofs::Lending::by_zeros))]
pub(crate) fn lent_right(n: usize, state: &State, kind: usize) -> bool
    ensures { result ≡ lent_right n state.now kind }
{
    if kind >= Kind::COUNT || n > Kind::ARENA || state.count > Kind::COUNT {
        return false;
    }
    let held = state.held();
    are_single(held) && places_in(held) <= n && all_zero(&state.kinds[state.count..])
}
