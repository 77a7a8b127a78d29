// A short arena: the weights of some kinds, in the order added, in a lent slice. A kind is added behind those held, looked up, and
// dropped, when the later ones move down.
#![tactic(auto)]

mod arena;
mod held;

pub use arena::{Part, ShortError, add, drop_kind, lookup, lookup_reply};
pub use held::State;
