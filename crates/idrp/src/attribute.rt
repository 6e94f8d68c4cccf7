// The path attributes of an UPDATE.
ghost use Rattle.std.specs.Prelude.{◌≡◌, ◌&&◌, ◌+◌, ◌<◌, ◌≤◌, IfSome, eqb, length, get_or, refl};
ghost use Rattle.octets.specs.Emit.{Emits};
ghost use Rattle.cells.specs.Items.{flat};
ghost use Rattle.idrp.specs.Update.{attributes_at, attributes_end, shown as shownOf, attribute_value, attribute, attribute_at, attribute_items, attributes_place, attributes_member};

use crate::octet::two_at;
use cells::emit::{close_group, open_list, open_object, put_hex_part, put_number, put_text_number};
use cells::entry::Body;
use cells::walk::{Entries, put_entries};
use codes::idrp_attr_name;
use fields::part::Part;
use names::key::{PATH_ATTRIBUTES, TYPE, TYPE_CODE, VALUE, VALUE_HEX};

// The place of the attributes' length, behind the withdrawn routes.
pub fn attributes_at(s: &[u8]) -> usize
    requires { 2 ≤ length s.now }
    ensures { (result ≡ attributes_at s.now) × (result < 262146) }
{
    let n = two_at(s, 0);
    2 + 4 * n
}

pub fn attributes_end(s: &[u8], p: usize) -> usize
    requires { (p ≡ attributes_at s.now) × (p + 2 ≤ length s.now) }
    ensures { result ≡ attributes_end s.now }
{
    let n = two_at(s, p);
    p + 2 + n
}

// What stands at position i: the value may run past the attributes' end, but not past the body's.
#[tactic(auto, unfolding(crate::specs::Update::attribute_at))]
fn attribute_at(s: &[u8], end: usize, i: usize) -> Option<Body>
    requires { i ≤ length s.now }
    ensures value { result ≡ attribute_at s.now end i }
    ensures within { IfSome result (λ b. (i < b.start + b.len) × (b.start + b.len ≤ length s.now)) }
{
    if i + 4 < end && i + 4 <= s.len() {
        let len = two_at(s, i + 2);
        if i + 4 + len <= s.len() {
            return Some(Body { start: i + 4, len });
        }
    }
    None
}

// The place behind the last attribute.
pub fn attributes_place(s: &[u8], p: usize) -> usize
    requires { (p ≡ attributes_at s.now) × (p + 2 ≤ length s.now) }
    ensures { (result ≡ attributes_place s.now) × (result ≤ length s.now) }
{
    let end = attributes_end(s, p);
    // No `for`: where an attribute begins, the one before it says.
    let mut place = p + 2;
    while place < s.len() {
        let Some(b) = attribute_at(s, end, place) else {
            return place;
        };
        place = b.start + b.len;
    }
    place
}

// The types whose one octet is a number.
fn shown(t: u8) -> bool
    ensures { result ≡ shownOf t }
{
    matches!(t, 7..=10 | 13 | 16)
}

fn numbered(t: u8, n: usize) -> bool
    ensures { result ≡ (shownOf t && eqb n 1) }
{
    shown(t) && n == 1
}

// The value of n octets at place i of a body that stands at place base of the input.
fn put_value(out: &mut [u64], at: usize, body: Part, t: u8, b: Body) -> usize
    requires { b.start + b.len ≤ length body.octets.now }
    ensures { Emits out.old at (flat 4 (attribute_value body.entry.base body.entry.octets.now t b.start b.len)) out.new result }
{
    if numbered(t, b.len) {
        put_number(out, at, 4, VALUE, body.octets[b.start] as u32)
    } else if 0 < b.len {
        put_hex_part(out, at, 4, VALUE_HEX, body.base + b.start, b.len)
    } else {
        at
    }
}

fn put_attribute(out: &mut [u64], at: usize, body: Part, t: u8, b: Body) -> usize
    requires { b.start + b.len ≤ length body.octets.now }
    ensures { Emits out.old at (flat 3 (attribute body.entry.base body.entry.octets.now t b.start b.len)) out.new result }
{
    let opened = open_object(out, at, 3, 0);
    let typed = put_text_number(out, opened, 4, TYPE, idrp_attr_name(t));
    let coded = put_number(out, typed, 4, TYPE_CODE, t as u32);
    let valued = put_value(out, coded, body, t, b);
    close_group(out, valued, 3)
}

// Their length says where they end.
#[derive(Clone, Copy)]
struct Attributes<'a> {
    body: Part<'a>,
    end: usize,
    ghost ends: { end ≡ attributes_end body.octets.now },
}

impl Entries for Attributes<'_> {
    ghost size = { λ a. length a.body.octets.now };

    ghost depth = { λ a. 2 };

    ghost body = { λ a. attribute_at a.body.octets.now (attributes_end a.body.octets.now) };

    ghost items = { λ a i start n. attribute a.body.base a.body.octets.now (get_or a.body.octets.now (i + 1) 0) start n };

    ghost listed = { λ a i start n f xs. refl };

    fn len(&self) -> usize {
        self.body.octets.len()
    }

    fn level(&self) -> u8 {
        2
    }

    fn body_at(&self, i: usize) -> Option<Body> {
        attribute_at(self.body.octets, self.end, i)
    }

    fn put_entry(&self, out: &mut [u64], at: usize, i: usize, b: Body) -> usize {
        put_attribute(out, at, self.body, self.body.octets[i + 1], b)
    }
}

// The attributes of a body that stands at place base of the input, whose length is at p, as a member, which is left out where
// their length is 0.
pub fn put_attributes(out: &mut [u64], at: usize, base: usize, s: &[u8], p: usize) -> usize
    requires { (p ≡ attributes_at s.now) × (p + 2 ≤ length s.now) × (base + length s.now < 65536) }
    ensures { Emits out.old at (flat 2 (attributes_member base s.now)) out.new result }
{
    if two_at(s, p) == 0 {
        return at;
    }
    let end = attributes_end(s, p);
    let body = Part { base, octets: s };
    let opened = open_list(out, at, 2, PATH_ATTRIBUTES);
    let shown = put_entries(&Attributes { body, end }, out, opened, p + 2);
    close_group(out, shown, 2)
}
