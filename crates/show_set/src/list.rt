// What programs list of a header's set: for each kind and channel a line on its straight part.
use crate::expand_header;
use dequant::Order;
use show_weights::{item, total, weight_at};
use std::io;
use std::io::Write;
use transform::Kind;

// The weights of a part, commas between them.
fn weights<W: Write>(out: &mut W, part: &[f32]) -> io::Result<()> {
    for (i, x) in part.iter().enumerate() {
        item(out, i, *x)?;
    }
    Ok(())
}

// The first row of a part.
fn key<W: Write>(out: &mut W, part: &[f32], width: usize) -> io::Result<()> {
    weights(out, show::first(part, width))?;
    show::end(out)
}

// The weight at a place, after a sign.
fn corner<W: Write>(out: &mut W, part: &[f32], sign: &[u8], i: usize) -> io::Result<()> {
    show::text(out, sign)?;
    weight_at(out, part, i)
}

// The total and the corners of a part whose rows are `width` long.
fn summary<W: Write>(out: &mut W, part: &[f32], width: usize) -> io::Result<()> {
    show::decimal(out, total(part))?;
    let n = part.len();
    if 0 < width && width <= n {
        corner(out, part, b" ", 0)?;
        corner(out, part, b",", width - 1)?;
        corner(out, part, b",", n - width)?;
        corner(out, part, b",", n - 1)?;
    }
    show::end(out)
}

// The line of a kind's channel, as `line` writes it of the part and its width.
fn show_channel<'a, W: Write, F: Fn(&mut W, &[f32], usize) -> io::Result<()>>(
    out: &mut W,
    straight: &'a [f32],
    transposed: &'a [f32],
    kind: usize,
    channel: usize,
    line: F,
) -> io::Result<()>
    requires { F.IsAlwaysCallable line }
{
    let k = Kind { no: kind };
    let part = dequant::lookup(straight, transposed, kind, channel, Order::Straight);
    line(out, part, k.width())
}

fn show_kinds<'a, W: Write, F: Fn(&mut W, &[f32], usize) -> io::Result<()>>(
    out: &mut W,
    straight: &'a [f32],
    transposed: &'a [f32],
    line: F,
) -> io::Result<()>
    requires { F.IsAlwaysCallable line }
{
    for kind in 0..Kind::COUNT {
        show_channel(out, straight, transposed, kind, 0, &line)?;
        show_channel(out, straight, transposed, kind, 1, &line)?;
        show_channel(out, straight, transposed, kind, 2, &line)?;
    }
    Ok(())
}

fn list<W: Write, F: Fn(&mut W, &[f32], usize) -> io::Result<()>>(
    out: &mut W,
    header: &[u8],
    straight: &mut [f32],
    transposed: &mut [f32],
    line: F,
) -> io::Result<()>
    requires { F.IsAlwaysCallable line }
{
    if expand_header(out, header, straight, transposed)? {
        show_kinds(out, straight, transposed, line)?;
    }
    Ok(())
}

// With two arenas, each lent once: a goal after a second loan would count them.
fn with_arenas<W: Write, F: Fn(&mut W, &[f32], usize) -> io::Result<()>>(
    out: &mut W,
    header: &[u8],
    line: F,
) -> io::Result<()>
    requires { F.IsAlwaysCallable line }
{
    let mut straight = [0.0f32; 394752];
    let mut transposed = [0.0f32; 394752];
    list(out, header, &mut straight, &mut transposed, line)
}

// The first row of each: eight hexadecimal digits for a weight, commas between them.
pub fn keys<W: Write>(out: &mut W, header: &[u8]) -> io::Result<()> {
    with_arenas(out, header, |out, part, width| key(out, part, width))
}

// Of each the 64-bit total of bits x (place + 1), and the bits of the four corner weights.
pub fn summaries<W: Write>(out: &mut W, header: &[u8]) -> io::Result<()> {
    with_arenas(out, header, |out, part, width| summary(out, part, width))
}
