// The facilities of a call packet.
ghost use Rattle.std.specs.Prelude.{◌≡◌, ◌+◌, ◌<◌, ◌≤◌, IfSome, length, get_or, refl};
ghost use Rattle.octets.specs.Emit.{Emits};
ghost use Rattle.names.specs.Numbers.{k_facilities};
ghost use Rattle.cells.specs.Items.{in_list, flat};
ghost use Rattle.x25.specs.Facility.{facility, fac_at, fac_items};

use cells::emit::{close_group, open_object, put_hex_part, put_octet_leaf};
use cells::entry::Body;
use cells::walk::{Entries, put_entries, put_list};
use fields::part::Part;
use names::key::{CODE, FACILITIES, PARAMS};
use octets::read::wide;

// What stands at position i of a part: the next entry begins behind it, and within the part.
#[tactic(auto, unfolding(crate::specs::Facility::fac_at))]
pub fn entry_at(s: &[u8], i: usize) -> Option<Body>
    requires { i < length s.now }
    ensures value { result ≡ fac_at s.now i }
    ensures within { IfSome result (λ b. (i < b.start + b.len) × (b.start + b.len ≤ length s.now)) }
{
    let class = s[i] / 64;
    if class <= 2 {
        let len = class as usize + 1;
        if i + 1 + len <= s.len() {
            return Some(Body { start: i + 1, len });
        }
    } else if i + 1 < s.len() {
        let len = wide(s[i + 1]);
        if i + 2 + len <= s.len() {
            return Some(Body { start: i + 2, len });
        }
    }
    None
}

// One facility, whose parameters have this place in the input.
fn put_facility(out: &mut [u64], at: usize, code: u8, from: usize, len: usize) -> usize
    requires { from + len < 65536 }
    ensures { Emits out.old at (flat 2 (facility code from len)) out.new result }
{
    let opened = open_object(out, at, 2, 0);
    let coded = put_octet_leaf(out, opened, 3, CODE, code);
    let shown = put_hex_part(out, coded, 3, PARAMS, from, len);
    close_group(out, shown, 2)
}

#[derive(Clone, Copy)]
struct FacilityList<'a> {
    part: Part<'a>,
}

impl Entries for FacilityList<'_> {
    ghost size = { λ f. length f.part.octets.now };

    ghost depth = { λ f. 1 };

    ghost body = { λ f. fac_at f.part.octets.now };

    ghost items = { λ f i start n. facility (get_or f.part.octets.now i 0) (f.part.base + start) n };

    ghost listed = { λ f i start n k xs. refl };

    fn len(&self) -> usize {
        self.part.octets.len()
    }

    fn level(&self) -> u8 {
        1
    }

    fn body_at(&self, i: usize) -> Option<Body> {
        entry_at(self.part.octets, i)
    }

    fn put_entry(&self, out: &mut [u64], at: usize, i: usize, b: Body) -> usize {
        put_facility(
            out,
            at,
            self.part.octets[i],
            self.part.base + b.start,
            b.len,
        )
    }
}

// The facilities of a part that stands at place base of the input.
pub fn facilities(out: &mut [u64], at: usize, s: &[u8], base: usize) -> usize
    requires { base + length s.now < 65536 }
    ensures { Emits out.old at (flat 2 (fac_items base s.now)) out.new result }
{
    let part = Part { base, octets: s };
    put_entries(&FacilityList { part }, out, at, 0)
}

// As a member, which is left out where there is none.
pub fn put_facilities(out: &mut [u64], at: usize, s: &[u8], base: usize) -> usize
    requires { base + length s.now < 65536 }
    ensures { Emits out.old at (flat 1 (in_list k_facilities (fac_items base s.now))) out.new result }
{
    put_list(
        &FacilityList {
            part: Part { base, octets: s },
        },
        out,
        at,
        FACILITIES,
        0,
    )
}
