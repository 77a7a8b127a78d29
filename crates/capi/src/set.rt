// Expanding all kinds.
ghost use Rattle.std.specs.Prelude.{◌≡◌, length};
ghost use Rattle.matrix.specs.Expanded.{leaves, reply_of};
ghost use Rattle.dequant.specs.Set.{expand_set, straight_arena, transposed_arena};
ghost use Rattle.capi.specs.Reply.{returned, held, kept};

use crate::reply::say;

// Expands all kinds into two arenas of 394,752; samples are as many, or none if no row is raw.
pub fn dequant_expand(
    rows: &[u16],
    samples: &[i32],
    straight: &mut [f32],
    transposed: &mut [f32],
    reply: &mut [u64],
) -> u32
    ensures answer { result ≡ returned reply.old (reply_of (expand_set rows.now samples.now (length straight.old) (length transposed.old))) }
    ensures reply { reply.new ≡ held reply.old (reply_of (expand_set rows.now samples.now (length straight.old) (length transposed.old))) }
    ensures straight { straight.new ≡ kept reply.old (leaves (expand_set rows.now samples.now (length straight.old) (length transposed.old)) (straight_arena rows.now samples.now) straight.old) straight.old }
    ensures transposed { transposed.new ≡ kept reply.old (leaves (expand_set rows.now samples.now (length straight.old) (length transposed.old)) (transposed_arena rows.now samples.now) transposed.old) transposed.old }
{
    if reply.len() != 3 {
        return 1;
    }
    let found = dequant::expand(rows, samples, straight, transposed);
    say(found.into(), reply)
}
