// A part of the input.
ghost use Rattle.std.specs.Prelude.{◌+◌, ◌<◌, length};

// Octets that stand at place base of the input.
#[derive(Clone, Copy)]
pub struct Part<'a> {
    pub base: usize,
    pub octets: &'a [u8],
    pub ghost within: { base + length octets.now < 65536 },
}
