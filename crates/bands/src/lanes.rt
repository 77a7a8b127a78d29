// Eight roots side by side: what is done in one lane is done in all, so that the compiler makes vector code of it.
ghost use Rattle.std.specs.Prelude.{◌≡◌, ◌-◌, ◌*◌, ◌^◌, ◌<◌, ◌≤◌, if◌then◌else◌, from_bits, nat_lt};
ghost use Rattle.std.specs.Float.{binary32};
ghost use Rattle.bands.specs.Root.{whole_root, root_of};
ghost use Rattle.bands.specs.Eights.{Turning, Turned, Begun, Ended, raised_of};

// a less t and 1, where t is below a. The compare is that of signed numbers, for which there is a vector form.
fn over(t: u32, a: u32) -> u32
    requires { (t < 2 ^ 31) × (a < 2 ^ 31) }
    ensures { result ≡ (if nat_lt t a then a - t - 1 else a) }
{
    if (t as i32) < (a as i32) {
        a - t - 1
    } else {
        a
    }
}

// 1 where t is below a.
pub(crate) fn digit(t: u32, a: u32) -> u32
    requires { (t < 2 ^ 31) × (a < 2 ^ 31) }
    ensures { result ≡ (if nat_lt t a then 1 else 0) }
{
    ((t as i32) < (a as i32)) as u32
}

// The next digit of each root, as `whole_root` finds it.
fn turn_eight(root: &mut [u32; 8], rem: &mut [u32; 8], left: &mut [u32; 8])
    requires { Turning root.old rem.old left.old }
    ensures { Turned root.old rem.old left.old root.new rem.new left.new }
{
    for i in 0..8 {
        let a = (rem[i] << 2) | (left[i] >> 30);
        let t = root[i] << 2;
        rem[i] = over(t, a);
        root[i] = (root[i] << 1) | digit(t, a);
        left[i] = left[i] << 2;
    }
}

// Eight roots, and what their numbers are beyond the squares.
#[derive(Clone, Copy)]
pub struct Eight {
    pub root: [u32; 8],
    pub rem: [u32; 8],
}

// The last n digits of eight roots, from those before them, what is beyond their squares, and the digits to come. No root has more than
// 29 digits, so that what is compared has 31.
pub(crate) fn digits_eight(root: [u32; 8], rem: [u32; 8], left: [u32; 8], n: usize) -> Eight
    requires { Begun n root rem left }
    ensures { Ended n root rem left result.root result.rem }
{
    let mut so_far = root;
    let mut beyond = rem;
    let mut next = left;
    for _ in 0..n {
        turn_eight(&mut so_far, &mut beyond, &mut next);
    }
    Eight {
        root: so_far,
        rem: beyond,
    }
}

// The digits of the normal float with the bits b, moved up so that 2^18 times that has 49 or 50: the whole root of it is the root's digits
// and one more. The two forms differ by a place, and no shift by a variable is needed.
pub(crate) fn raised(b: u32) -> u32
    ensures { result ≡ raised_of b }
{
    if (b << 8) >> 31 == 0 {
        ((b << 9) >> 1) | 2147483648
    } else {
        ((b << 9) >> 2) | 1073741824
    }
}

// The rounded root of the normal float with the bits b, from that whole root. For other bits it is some float.
pub(crate) fn packed(b: u32, root: u32) -> f32
    requires { (b < 0x7f80_0000) × (root < 2 ^ 25) }
    ensures { 2 ^ 23 ≤ b → root ≡ whole_root (raised_of b * 2 ^ 18) → result ≡ root_of (from_bits binary32 b) }
{
    f32::from_bits(((((b >> 23) + 125) >> 1) << 23) + ((root + 1) >> 1))
}
