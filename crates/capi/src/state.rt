// A short arena's state as C has it, in 18 bytes.
ghost use Rattle.std.specs.Prelude.{◌≡◌};
ghost use Rattle.capi.specs.Bytes.{state_in};
ghost use Rattle.capi.specs.Said.{Small, put_bytes};

use short_arena::State;
use std::array;

// How many kinds are held, and a place for each kind.
const BYTES: usize = 18;

// More kinds than there are.
const TOO_MANY: usize = 18;

// The state in 18 bytes. In another number of bytes there is none: the one that is given has more kinds than there are, so that every call
// refuses it.
#[tactic(auto, using(crate::proofs::StateBytes::other_state))]
pub(crate) fn state_of(bytes: &[u8]) -> State
    ensures state { result ≡ state_in bytes.now }
    ensures small { Small result }
{
    if bytes.len() != BYTES {
        return State {
            count: TOO_MANY,
            kinds: [0; 17],
        };
    }
    State {
        count: usize::from(bytes[0]),
        kinds: array::from_fn(|i| usize::from(bytes[1 + i])),
    }
}

// A state into its 18 bytes. Another number of bytes stays as it is.
#[tactic(auto, using(crate::proofs::StateBytes::other_bytes, std::proofs::lemmas::List::Edits::paste_none, crate::proofs::StateBytes::put_more, crate::proofs::StateBytes::all_put))]
pub(crate) fn put_state(state: &State, bytes: &mut [u8])
    requires { Small state.now }
    ensures { bytes.new ≡ put_bytes bytes.old state.now }
{
    if bytes.len() != BYTES {
        return;
    }
    bytes[0] = state.count as u8;
    for (i, k) in state.kinds.iter().enumerate() {
        bytes[1 + i] = *k as u8;
    }
}
