// The tag sets of an ATN security label.
ghost use Rattle.std.specs.Prelude.{◌≡◌, false, List, ◌+◌, ◌<◌, ◌≤◌, IfSome, length, get_or, refl};
ghost use Rattle.octets.specs.Emit.{Emits};
ghost use Rattle.names.specs.Numbers.{k_sec_info};
ghost use Rattle.codes.specs.Codes.{Row};
ghost use Rattle.cells.specs.Items.{none, group, in_list, flat};
ghost use Rattle.clnp.specs.Label.{Names, bit_name, bit_names, traffic_name, category_name, security_members, subnet_members, class_members, traffic_members, tag_members, tag, tag_at, tag_items};

use cells::emit::{close_group, open_list, open_object, put_hex_part, put_number, put_text_number};
use cells::entry::Body;
use cells::walk::{Entries, put_entries, put_list};
use codes::{atn_security_class_name, atn_subnet_name, atn_traffic_type_name, atsc_class_name};
use fields::member::put_text_if;
use fields::part::Part;
use names::key::{
    CATEGORY, CLASS_ID, CLASS_NAME, CLASSES, KIND, PERMITTED_TRAFFIC_TYPES, ROUTE_POLICY, SEC_INFO,
    SUBNET_ID, SUBNET_NAME, TAG_SET, TRAFFIC_TYPE, VALUE_HEX,
};
use names::text::{
    AOC, ATN_ADMINISTRATIVE, ATN_OPERATIONAL, ATN_SYSTEM_MANAGEMENT, ATSC, NONE,
    SECURITY_CLASSIFICATION, SUBNET_TYPE, SUPPORTED_ATSC_CLASSES, TRAFFIC_TYPE as TRAFFIC, UNKNOWN,
};
use octets::read::wide;

// The text of a bit that is set, by the function that has its texts.
fn put_bit<F: Fn(u8) -> u32>(out: &mut [u64], at: usize, name: &F, o: u8, bit: u8) -> usize
    ghost rows: { List Row }
    requires some { 0 < bit }
    requires callable { F.IsAlwaysCallable name.now }
    requires named { Names (F.post name.now) rows }
    ensures { Emits out.old at (flat 7 (bit_name rows o bit)) out.new result }
{
    if o / bit % 2 == 1 {
        put_text_if(out, at, 7, 0, name(bit))
    } else {
        at
    }
}

// The texts of the bits that are set, as a list.
fn put_bits<F: Fn(u8) -> u32>(out: &mut [u64], at: usize, field: u8, name: &F, o: u8) -> usize
    ghost rows: { List Row }
    requires callable { F.IsAlwaysCallable name.now }
    requires named { Names (F.post name.now) rows }
    ensures { Emits out.old at (flat 6 (group false field (bit_names rows o) none)) out.new result }
{
    let opened = open_list(out, at, 6, field);
    let one = put_bit(out, opened, name, o, 1);
    let two = put_bit(out, one, name, o, 2);
    let four = put_bit(out, two, name, o, 4);
    let eight = put_bit(out, four, name, o, 8);
    let sixteen = put_bit(out, eight, name, o, 16);
    let thirty_two = put_bit(out, sixteen, name, o, 32);
    let sixty_four = put_bit(out, thirty_two, name, o, 64);
    let all = put_bit(out, sixty_four, name, o, 128);
    close_group(out, all, 6)
}

fn traffic_name(v: u8) -> u32
    ensures { result ≡ traffic_name v }
{
    match v {
        0..=0x1F => ATN_OPERATIONAL,
        0x30 => ATN_ADMINISTRATIVE,
        0x20..=0x3F => ATN_OPERATIONAL,
        0x60..=0x7F => ATN_SYSTEM_MANAGEMENT,
        _ => UNKNOWN,
    }
}

fn category_name(v: u8) -> u32
    ensures { result ≡ category_name v }
{
    match v {
        0..=0x1F => ATSC,
        0x30 => NONE,
        0x20..=0x3F => AOC,
        0x60..=0x7F => NONE,
        _ => UNKNOWN,
    }
}

fn put_security(out: &mut [u64], at: usize, v: u8) -> usize
    ensures { Emits out.old at (flat 6 (security_members v)) out.new result }
{
    let kind = put_text_number(out, at, 6, KIND, SECURITY_CLASSIFICATION);
    let class = put_number(out, kind, 6, CLASS_ID, v as u32);
    put_text_if(out, class, 6, CLASS_NAME, atn_security_class_name(v))
}

fn put_subnet(out: &mut [u64], at: usize, v: u8, bits: u8) -> usize
    ensures { Emits out.old at (flat 6 (subnet_members v bits)) out.new result }
{
    let kind = put_text_number(out, at, 6, KIND, SUBNET_TYPE);
    let subnet = put_number(out, kind, 6, SUBNET_ID, v as u32);
    let named = put_text_if(out, subnet, 6, SUBNET_NAME, atn_subnet_name(v));
    put_bits(
        out,
        named,
        PERMITTED_TRAFFIC_TYPES,
        &atn_traffic_type_name,
        bits,
    )
}

fn put_classes(out: &mut [u64], at: usize, v: u8) -> usize
    ensures { Emits out.old at (flat 6 (class_members v)) out.new result }
{
    let kind = put_text_number(out, at, 6, KIND, SUPPORTED_ATSC_CLASSES);
    put_bits(out, kind, CLASSES, &atsc_class_name, v)
}

fn put_traffic(out: &mut [u64], at: usize, v: u8) -> usize
    ensures { Emits out.old at (flat 6 (traffic_members v)) out.new result }
{
    let kind = put_text_number(out, at, 6, KIND, TRAFFIC);
    let traffic = put_text_number(out, kind, 6, TRAFFIC_TYPE, traffic_name(v));
    let category = put_text_number(out, traffic, 6, CATEGORY, category_name(v));
    put_number(out, category, 6, ROUTE_POLICY, (v % 32) as u32)
}

// The members of a tag set, by its name: a value that nothing else is known of is given by its place in the input.
#[tactic(auto, unfolding(crate::specs::Label::tag_members))]
fn put_by_name(out: &mut [u64], at: usize, part: Part, name: u8, b: Body) -> usize
    requires { b.start + b.len ≤ length part.octets.now }
    ensures { Emits out.old at (flat 6 (tag_members part.entry.base part.entry.octets.now name b.start b.len)) out.new result }
{
    let s = part.octets;
    match (name, b.len) {
        (0x03, 1) => put_security(out, at, s[b.start]),
        (0x05, 2) => put_subnet(out, at, s[b.start], s[b.start + 1]),
        // 0x07 in an arm of its own: the proof of both in one pattern didn't close.
        (0x06, 1) => put_classes(out, at, s[b.start]),
        (0x07, 1) => put_classes(out, at, s[b.start]),
        (0x0F, 1..) => put_traffic(out, at, s[b.start]),
        _ => put_hex_part(out, at, 6, VALUE_HEX, part.base + b.start, b.len),
    }
}

fn put_tag(out: &mut [u64], at: usize, part: Part, name: u8, b: Body) -> usize
    requires { b.start + b.len ≤ length part.octets.now }
    ensures { Emits out.old at (flat 5 (tag part.entry.base part.entry.octets.now name b.start b.len)) out.new result }
{
    let opened = open_object(out, at, 5, 0);
    let named = put_number(out, opened, 6, TAG_SET, name as u32);
    let shown = put_by_name(out, named, part, name, b);
    close_group(out, shown, 5)
}

// What stands at position i of a part: a name of one octet, a length and a value.
#[tactic(auto, unfolding(crate::specs::Label::tag_at))]
pub fn tag_at(s: &[u8], i: usize) -> Option<Body>
    requires { i ≤ length s.now }
    ensures value { result ≡ tag_at s.now i }
    ensures within { IfSome result (λ b. (i < b.start + b.len) × (b.start + b.len ≤ length s.now)) }
{
    if i + 3 <= s.len() && s[i] == 1 {
        let len = wide(s[i + 2]);
        if i + 3 + len <= s.len() {
            return Some(Body { start: i + 3, len });
        }
    }
    None
}

#[derive(Clone, Copy)]
struct TagList<'a> {
    part: Part<'a>,
}

impl Entries for TagList<'_> {
    ghost size = { λ t. length t.part.octets.now };

    ghost depth = { λ t. 4 };

    ghost body = { λ t. tag_at t.part.octets.now };

    ghost items = { λ t i start n. tag t.part.base t.part.octets.now (get_or t.part.octets.now (i + 1) 0) start n };

    ghost listed = { λ t i start n f xs. refl };

    fn len(&self) -> usize {
        self.part.octets.len()
    }

    fn level(&self) -> u8 {
        4
    }

    fn body_at(&self, i: usize) -> Option<Body> {
        tag_at(self.part.octets, i)
    }

    fn put_entry(&self, out: &mut [u64], at: usize, i: usize, b: Body) -> usize {
        put_tag(out, at, self.part, self.part.octets[i + 1], b)
    }
}

// The tag sets of a part that stands at place base of the input.
pub fn tags(out: &mut [u64], at: usize, base: usize, s: &[u8]) -> usize
    requires { base + length s.now < 65536 }
    ensures { Emits out.old at (flat 5 (tag_items base s.now)) out.new result }
{
    put_entries(
        &TagList {
            part: Part { base, octets: s },
        },
        out,
        at,
        0,
    )
}

// As a member, which is left out where there is none.
pub fn put_tags(out: &mut [u64], at: usize, base: usize, s: &[u8]) -> usize
    requires { base + length s.now < 65536 }
    ensures { Emits out.old at (flat 4 (in_list k_sec_info (tag_items base s.now))) out.new result }
{
    let part = Part { base, octets: s };
    put_list(&TagList { part }, out, at, SEC_INFO, 0)
}
