// Emitters of octets: each writes at a place of the output, drops what falls past its end, and gives the next place.
ghost use Rattle.std.specs.Prelude.{◌≡◌, [], ◌∷◌, ◌+◌, ◌-◌, ◌≤◌, length, take, drop};
ghost use Rattle.octets.specs.Emit.{Emits, put};

// dst with n octets from place at on replaced by those of src from place from on.
pub fn copy<T: Copy>(dst: &mut [T], at: usize, src: &[T], from: usize, n: usize)
    requires { (at + n ≤ length dst.old) × (from + n ≤ length src.now) }
    ensures { dst.new ≡ put dst.old at (take n (drop from src.now)) }
{
    // Not `copy_from_slice`, which an archive would need `memmove` from outside for.
    for j in 0..n {
        dst[at + j] = src[from + j];
    }
}

pub fn put_one<T: Copy>(out: &mut [T], at: usize, x: T) -> usize
    ensures { Emits out.old at (x ∷ []) out.new result }
{
    // In two, so that a place inside the output needs no test for the last one.
    if at < out.len() {
        out[at] = x;
        return at + 1;
    }
    at.saturating_add(1)
}

pub fn put_octet(out: &mut [u8], at: usize, x: u8) -> usize
    ensures { Emits out.old at (x ∷ []) out.new result }
{
    put_one(out, at, x)
}

// One by one, for an output that ends before s does.
fn put_each<T: Copy>(out: &mut [T], at: usize, s: &[T]) -> usize
    ensures { Emits out.old at s.now out.new result }
{
    let mut next = at;
    for x in s {
        next = put_one(out, next, *x);
    }
    next
}

pub fn put_all<T: Copy>(out: &mut [T], at: usize, s: &[T]) -> usize
    ensures { Emits out.old at s.now out.new result }
{
    let n = s.len();
    if at <= out.len() && n <= out.len() - at {
        copy(out, at, s, 0, n);
        return at + n;
    }
    put_each(out, at, s)
}

pub fn put_octets(out: &mut [u8], at: usize, s: &[u8]) -> usize
    ensures { Emits out.old at s.now out.new result }
{
    put_all(out, at, s)
}

// The octets of s from place from up to, and not including, place to.
pub fn put_part(out: &mut [u8], at: usize, s: &[u8], from: usize, to: usize) -> usize
    requires { (from ≤ to) × (to ≤ length s.now) }
    ensures { Emits out.old at (take (to - from) (drop from s.now)) out.new result }
{
    put_octets(out, at, &s[from..to])
}
