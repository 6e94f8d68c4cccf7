// Numbers at a place, most significant octet first.
ghost use Rattle.std.specs.Prelude.{◌≡◌, ◌+◌, ◌<◌, ◌≤◌, length, get_or};
ghost use Rattle.octets.specs.Read.{be32};
ghost use Rattle.idrp.specs.Update.{at16};

use octets::read::{u16_of, u32_of};

pub fn two_at(s: &[u8], p: usize) -> usize
    requires { p + 2 ≤ length s.now }
    ensures { (result ≡ at16 s.now p) × (result < 65536) }
{
    u16_of(s[p], s[p + 1]) as usize
}

pub fn four_at(s: &[u8], p: usize) -> u32
    requires { p + 4 ≤ length s.now }
    ensures { result ≡ be32 (get_or s.now p 0) (get_or s.now (p + 1) 0) (get_or s.now (p + 2) 0) (get_or s.now (p + 3) 0) }
{
    u32_of(s[p], s[p + 1], s[p + 2], s[p + 3])
}
