// Numbers read from octets, most significant first.
ghost use Rattle.std.specs.Prelude.{◌≡◌, ◌<◌};
ghost use Rattle.octets.specs.Read.{be16, be32};

pub fn wide(x: u8) -> usize
    ensures { (result ≡ x) × (result < 256) }
{
    x as usize
}

pub fn u16_of(a: u8, b: u8) -> u16
    ensures { result ≡ be16 a b }
{
    a as u16 * 256 + b as u16
}

pub fn u32_of(a: u8, b: u8, c: u8, d: u8) -> u32
    ensures { result ≡ be32 a b c d }
{
    ((a as u32 * 256 + b as u32) * 256 + c as u32) * 256 + d as u32
}
