// Expanding one kind.
ghost use Rattle.std.specs.Prelude.{◌≡◌, length};
ghost use Rattle.matrix.specs.Expanded.{expand_answer, leaves, reply_of};
ghost use Rattle.matrix.specs.Mirror.{mirror};
ghost use Rattle.matrix.specs.Weight.{weights_of};
ghost use Rattle.capi.specs.Reply.{returned, held, kept};

// Expands one kind from its own row of 128 and, where it is raw, its samples.
#[unsafe(no_mangle)]
pub extern "C" fn dequant_expand_kind(
    kind: usize,
    row: &[u16],
    samples: &[i32],
    straight: &mut [f32],
    transposed: &mut [f32],
    reply: &mut [u64],
) -> u32
    ensures answer { result ≡ returned reply.old (reply_of (expand_answer kind row.now samples.now (length straight.old) (length transposed.old))) }
    ensures reply { reply.new ≡ held reply.old (reply_of (expand_answer kind row.now samples.now (length straight.old) (length transposed.old))) }
    ensures straight { straight.new ≡ kept reply.old (leaves (expand_answer kind row.now samples.now (length straight.old) (length transposed.old)) (weights_of row.now samples.now kind) straight.old) straight.old }
    ensures transposed { transposed.new ≡ kept reply.old (leaves (expand_answer kind row.now samples.now (length straight.old) (length transposed.old)) (mirror kind (weights_of row.now samples.now kind)) transposed.old) transposed.old }
{
    capi::dequant_expand_kind(kind, row, samples, straight, transposed, reply)
}
