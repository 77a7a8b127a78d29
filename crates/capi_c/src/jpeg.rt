// Where the JPEG values of a channel stand.
ghost use Rattle.std.specs.Prelude.{◌≡◌, ◌*◌, length};
ghost use Rattle.dequant.specs.Jpeg.{jpeg_answer};
ghost use Rattle.capi.specs.Parts.{jpeg_reply};
ghost use Rattle.capi.specs.Reply.{returned, held};

// Says where the 64 JPEG values of a channel stand in the samples, or why there are none.
#[unsafe(no_mangle)]
pub extern "C" fn dequant_jpeg_quant_values(
    rows: &[u16],
    samples: &[i32],
    channel: usize,
    reply: &mut [u64],
) -> u32
    ensures { (result ≡ returned reply.old (jpeg_reply (channel * 64) (jpeg_answer rows.now (length samples.now) channel)))
        × (reply.new ≡ held reply.old (jpeg_reply (channel * 64) (jpeg_answer rows.now (length samples.now) channel))) }
{
    capi::dequant_jpeg_quant_values(rows, samples, channel, reply)
}
