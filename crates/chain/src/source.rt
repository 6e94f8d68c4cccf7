// What is written into blocks: octets that are lent, or zeros.
ghost use Rattle.std.specs.Prelude.{◌≡◌, ◌+◌, ◌≤◌, List, ℕ, length, take, drop, replicate};
ghost use Rattle.octets.specs.Emit.{put};

use octets::emit::copy;

pub trait Source: Copy {
    // What it is, as octets.
    ghost octets: { Self → List ℕ };

    fn len(&self) -> usize
        ensures { result ≡ length (octets self.now) };

    // dst with n octets from index at replaced by those from its octet from on.
    fn put(&self, dst: &mut [u8], at: usize, from: usize, n: usize)
        requires { (at + n ≤ length dst.old) × (from + n ≤ length (octets self.now)) }
        ensures { dst.new ≡ put dst.old at (take n (drop from (octets self.now))) };
}

impl Source for &[u8] {
    ghost octets = { λ s. s.now };

    fn len(&self) -> usize {
        (**self).len()
    }

    fn put(&self, dst: &mut [u8], at: usize, from: usize, n: usize) {
        copy(dst, at, self, from, n);
    }
}

// So many zeros.
#[derive(Clone, Copy)]
pub struct Zeros(pub usize);

impl Source for Zeros {
    ghost octets = { λ z. replicate z.0 0 };

    fn len(&self) -> usize {
        self.0
    }

    fn put(&self, dst: &mut [u8], at: usize, _from: usize, n: usize) {
        dst[at..at + n].fill(0);
    }
}
