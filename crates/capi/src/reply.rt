// The values of a reply, in the order of the table of replies.
ghost use Rattle.std.specs.Prelude.{◌≡◌, [], ◌∷◌, length};
ghost use Rattle.capi.specs.Said.{said_of};

// A reply's number and values, those that it has not 0.
#[derive(Clone, Copy)]
pub(crate) struct Said {
    pub no: u32,
    pub first: u64,
    pub second: u64,
    pub third: u64,
}

pub(crate) fn made(no: u32, first: u64, second: u64, third: u64) -> Said
    ensures { result ≡ said_of (no ∷ first ∷ second ∷ third ∷ []) }
{
    Said {
        no,
        first,
        second,
        third,
    }
}

// Writes the values and hands the number on.
pub(crate) fn say(said: Said, reply: &mut [u64]) -> u32
    requires { length reply.old ≡ 3 }
    ensures { (result ≡ said.no) × (reply.new ≡ said.first ∷ said.second ∷ said.third ∷ []) }
{
    reply.copy_from_slice(&[said.first, said.second, said.third]);
    said.no
}
