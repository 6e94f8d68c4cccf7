// The address prefixes of an NLRI entry.
ghost use Rattle.std.specs.Prelude.{◌≡◌, false, ◌+◌, ◌<◌, ◌≤◌, IfSome, length, get_or, refl};
ghost use Rattle.octets.specs.Emit.{Emits};
ghost use Rattle.names.specs.Numbers.{k_prefixes};
ghost use Rattle.cells.specs.Items.{none, leaf, group, prefix, flat};
ghost use Rattle.idrp.specs.Update.{prefix_at, prefix_items};

use cells::emit::{close_group, open_list, put_prefix};
use cells::entry::Body;
use cells::walk::{Entries, put_entries};
use fields::part::Part;
use names::key::PREFIXES;
use octets::read::wide;

// What stands at position i: a count of bits, and the octets that hold them.
fn prefix_at(s: &[u8], i: usize) -> Option<Body>
    requires { i < length s.now }
    ensures value { result ≡ prefix_at s.now i }
    ensures within { IfSome result (λ b. (i < b.start + b.len) × (b.start + b.len ≤ length s.now)) }
{
    let len = (wide(s[i]) + 7) / 8;
    if i + 1 + len <= s.len() {
        return Some(Body { start: i + 1, len });
    }
    None
}

#[derive(Clone, Copy)]
struct Prefixes<'a> {
    part: Part<'a>,
}

impl Entries for Prefixes<'_> {
    ghost size = { λ p. length p.part.octets.now };

    ghost depth = { λ p. 4 };

    ghost body = { λ p. prefix_at p.part.octets.now };

    ghost items = { λ p i start n. leaf 0 (prefix (p.part.base + start) n (get_or p.part.octets.now i 0)) none };

    ghost listed = { λ p i start n f xs. refl };

    fn len(&self) -> usize {
        self.part.octets.len()
    }

    fn level(&self) -> u8 {
        4
    }

    fn body_at(&self, i: usize) -> Option<Body> {
        prefix_at(self.part.octets, i)
    }

    fn put_entry(&self, out: &mut [u64], at: usize, i: usize, b: Body) -> usize {
        put_prefix(
            out,
            at,
            5,
            0,
            self.part.base + b.start,
            b.len,
            self.part.octets[i],
        )
    }
}

// The prefixes of a part that stands at place base of the input, in a list that may be empty.
pub fn put_prefixes(out: &mut [u64], at: usize, base: usize, s: &[u8]) -> usize
    requires { base + length s.now < 65536 }
    ensures { Emits out.old at (flat 4 (group false k_prefixes (prefix_items base s.now) none)) out.new result }
{
    let opened = open_list(out, at, 4, PREFIXES);
    let shown = put_entries(
        &Prefixes {
            part: Part { base, octets: s },
        },
        out,
        opened,
        0,
    );
    close_group(out, shown, 4)
}
