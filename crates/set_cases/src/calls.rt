// The calls on what a case names.
use crate::lent::fill;
use crate::shown::{show_arenas, show_jpeg, show_part, show_reply};
use dequant::Order;
use matrix::Expanded;
use show::Case;
use std::io;
use std::io::Write;

// Which call a case names, by its number; each other number is that of the last.
enum Which {
    Expand,
    Lookup,
    Jpeg,
    ExpandKind,
    Keys,
    Summaries,
}

impl From<usize> for Which {
    fn from(n: usize) -> Which {
        match n {
            0 => Which::Expand,
            1 => Which::Lookup,
            2 => Which::Jpeg,
            3 => Which::ExpandKind,
            4 => Which::Keys,
            _ => Which::Summaries,
        }
    }
}

// With the case's samples.
fn with_samples<W: Write, F: FnOnce(&mut W, &[i32]) -> io::Result<()>>(
    out: &mut W,
    case: Case,
    call: F,
) -> io::Result<()>
    requires { F.IsAlwaysCallable call }
{
    let mut samples = [0i32; 394752];
    fill(&mut samples, case);
    call(out, show::first(&samples, case.field(3)))
}

// With two arenas of the case's lengths, whose weights have the bits deadbeef.
fn with_arenas<W: Write, F: FnOnce(&mut W, &mut [f32], &mut [f32]) -> io::Result<()>>(
    out: &mut W,
    case: Case,
    call: F,
) -> io::Result<()>
    requires { F.IsAlwaysCallable call }
{
    let mut straight = [-6259853398707798016.0f32; 394752];
    let mut transposed = [-6259853398707798016.0f32; 394752];
    call(
        out,
        show::first_mut(&mut straight, case.field(15)),
        show::first_mut(&mut transposed, case.field(16)),
    )
}

// Expands into two arenas, and shows the reply and both.
fn expand_case<W: Write, F: FnOnce(&[u16], &[i32], &mut [f32], &mut [f32]) -> Expanded>(
    out: &mut W,
    case: Case,
    expand: F,
) -> io::Result<()>
    requires { F.IsAlwaysCallable expand }
{
    let rows = case.rows_listed(12);
    let part = show::first(&rows, case.field(14));
    with_samples(out, case, |out, samples| {
        with_arenas(out, case, |out, straight, transposed| {
            show_reply(out, expand(part, samples, straight, transposed))?;
            show_arenas(out, case.listed(10), straight, transposed)
        })
    })
}

// Weights that count up from a number.
fn count_up(part: &mut [f32], from: f32) {
    let mut next = from;
    for x in part.iter_mut() {
        *x = next;
        next += 1.0;
    }
}

// An order by its number; each other number is that of the last.
fn order(n: usize) -> Order {
    match n {
        0 => Order::Unnamed,
        1 => Order::Straight,
        _ => Order::Transposed,
    }
}

fn lookup<'a, W: Write>(
    out: &mut W,
    case: Case,
    straight: &'a [f32],
    transposed: &'a [f32],
) -> io::Result<()> {
    show_part(
        out,
        dequant::lookup(
            straight,
            transposed,
            case.field(7),
            case.field(8),
            order(case.field(9)),
        ),
    )
}

// Looks a part up in arenas whose weights tell their places.
fn lookup_case<W: Write>(out: &mut W, case: Case) -> io::Result<()> {
    with_arenas(out, case, |out, straight, transposed| {
        count_up(straight, 0.0);
        count_up(transposed, 1048576.0);
        lookup(out, case, straight, transposed)
    })
}

fn jpeg_case<W: Write>(out: &mut W, case: Case) -> io::Result<()> {
    let rows = case.rows_listed(12);
    let part = show::first(&rows, case.field(14));
    with_samples(out, case, |out, samples| {
        show_jpeg(out, part, samples, case.field(8))
    })
}

// The call that a case names.
pub(crate) fn call<W: Write>(out: &mut W, case: Case) -> io::Result<()> {
    match Which::from(case.field(2)) {
        Which::Expand => expand_case(out, case, |rows, samples, straight, transposed| {
            dequant::expand(rows, samples, straight, transposed)
        }),
        Which::Lookup => lookup_case(out, case),
        Which::Jpeg => jpeg_case(out, case),
        Which::ExpandKind => expand_case(out, case, |rows, samples, straight, transposed| {
            matrix::expand_kind(case.field(7), rows, samples, straight, transposed)
        }),
        Which::Keys => show_set::keys(out, case.named(19)),
        Which::Summaries => show_set::summaries(out, case.named(19)),
    }
}
