// The body of an UPDATE.
ghost use Rattle.std.specs.Prelude.{◌≡◌, true, ◌+◌, ◌<◌, length};
ghost use Rattle.octets.specs.Emit.{Emits};
ghost use Rattle.cells.specs.Items.{flat};
ghost use Rattle.idrp.specs.Update.{update_readable, update_members};

use crate::attribute::{attributes_at, attributes_end, attributes_place, put_attributes};
use crate::nlri::put_nlri;
use crate::route::put_routes;

// A body that is not cut in its routes or attributes.
pub fn update_readable(s: &[u8]) -> bool
    ensures { result ≡ update_readable s.now }
{
    if s.len() < 2 {
        return false;
    }
    let p = attributes_at(s);
    if s.len() < p + 2 {
        return false;
    }
    let end = attributes_end(s, p);
    let place = attributes_place(s, p);
    end <= place + 4
}

// The members of a body that stands at place base of the input.
pub fn put_update(out: &mut [u64], at: usize, base: usize, s: &[u8]) -> usize
    requires { (update_readable s.now ≡ true) × (base + length s.now < 65536) }
    ensures { Emits out.old at (flat 2 (update_members base s.now)) out.new result }
{
    let p = attributes_at(s);
    let place = attributes_place(s, p);
    let routes = put_routes(out, at, s);
    let attributes = put_attributes(out, routes, base, s, p);
    put_nlri(out, attributes, base, s, place)
}
