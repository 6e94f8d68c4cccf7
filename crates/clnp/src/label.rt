// The ATN security label.
ghost use Rattle.std.specs.Prelude.{◌+◌, ◌<◌, length};
ghost use Rattle.octets.specs.Emit.{Emits};
ghost use Rattle.names.specs.Numbers.{k_sec_info};
ghost use Rattle.cells.specs.Items.{in_list, flat};
ghost use Rattle.clnp.specs.Label.{tag_items, info_part, label_members};

use crate::tag::put_tags;
use cells::emit::put_hex_part;
use fields::part::Part;
use names::key::REG_ID;
use octets::read::wide;

// The tag sets behind the registration id, whose length octet at p is cut to what is there.
fn put_info(out: &mut [u64], at: usize, part: Part, p: usize) -> usize
    requires { p < length part.octets.now }
    ensures { Emits out.old at (flat 4 (in_list k_sec_info (tag_items (part.entry.base + p + 1) (info_part part.entry.octets.now p)))) out.new result }
{
    let s = part.octets;
    let end = (p + 1 + wide(s[p])).min(s.len());
    put_tags(out, at, part.base + p + 1, &s[p + 1..end])
}

// The members of a label that stands at place base of the input.
pub fn put_label(out: &mut [u64], at: usize, base: usize, s: &[u8]) -> usize
    requires { base + length s.now < 65536 }
    ensures { Emits out.old at (flat 4 (label_members base s.now)) out.new result }
{
    let [first, ..] = s else {
        return at;
    };
    let n = wide(*first);
    if s.len() < 1 + n {
        return at;
    }
    let registered = put_hex_part(out, at, 4, REG_ID, base + 1, n);
    if 1 + n < s.len() {
        put_info(out, registered, Part { base, octets: s }, 1 + n)
    } else {
        registered
    }
}
