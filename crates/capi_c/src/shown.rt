// Where a lookup's part stands.
ghost use Rattle.std.specs.Prelude.{◌≡◌, length};
ghost use Rattle.capi.specs.Parts.{lookup_reply};
ghost use Rattle.capi.specs.Reply.{returned, held};

// Says where one channel of a kind stands in the order named: 0 none, which shows what 2 does, 1 straight, 2 transposed. A slice cannot be handed to C, its numbers can.
#[unsafe(no_mangle)]
pub extern "C" fn dequant_lookup(
    straight: &[f32],
    transposed: &[f32],
    kind: usize,
    channel: usize,
    order: u32,
    reply: &mut [u64],
) -> u32
    ensures { (result ≡ returned reply.old (lookup_reply (length straight.now) (length transposed.now) kind channel order))
        × (reply.new ≡ held reply.old (lookup_reply (length straight.now) (length transposed.now) kind channel order)) }
{
    capi::dequant_lookup(straight, transposed, kind, channel, order, reply)
}
