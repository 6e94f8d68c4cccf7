// The parameters of a TPDU.
ghost use Rattle.std.specs.Prelude.{◌≡◌, ◌+◌, ◌<◌, ◌≤◌, length, get_or, refl};
ghost use Rattle.octets.specs.Emit.{Emits};
ghost use Rattle.names.specs.Numbers.{k_params};
ghost use Rattle.cells.specs.Items.{in_list, flat};
ghost use Rattle.fields.specs.Tlv.{tlv_at};
ghost use Rattle.cotp.specs.Params.{value_items, param_value, param, param_items};

use cells::emit::{close_group, open_object, put_hex_part, put_number, put_octet_leaf};
use cells::entry::Body;
use cells::walk::{Entries, put_list};
use codes::cotp_param_name;
use fields::member::put_text_if;
use fields::part::Part;
use fields::tlv::tlv_at;
use names::key::{CODE, NAME, PARAMS, TPDU_SIZE, VALUE, VALUE_HEX};
use octets::read::{u16_of, u32_of};

// A value that is a number, with its key: a TPDU size is 2 to the value; ack time, priority, subsequence number and
// reassignment time have two octets, a version one, and an inactivity timer four.
#[tactic(auto, unfolding(crate::specs::Params::param_value))]
fn number_of(part: Part, t: u8, b: Body) -> Option<(u8, u32)>
    requires { b.start + b.len ≤ length part.octets.now }
    ensures { value_items (part.entry.base + b.start) b.len result ≡ param_value part.entry.base part.entry.octets.now t b.start b.len }
{
    let s = part.octets;
    let i = b.start;
    match (t, b.len) {
        (0xC0, 1) if 7 <= s[i] && s[i] <= 13 => Some((TPDU_SIZE, 1 << s[i])),
        (0x85 | 0x87 | 0x8A | 0x8B, 2) => Some((VALUE, u16_of(s[i], s[i + 1]) as u32)),
        (0xC4, 1) => Some((VALUE, s[i] as u32)),
        (0xF2, 4) => Some((VALUE, u32_of(s[i], s[i + 1], s[i + 2], s[i + 3]))),
        _ => None,
    }
}

// The octets of a value that is no number are given by their place in the input.
fn put_value(out: &mut [u64], at: usize, depth: u8, part: Part, t: u8, b: Body) -> usize
    requires { (depth < 16) × (b.start + b.len ≤ length part.octets.now) }
    ensures { Emits out.old at (flat depth (param_value part.entry.base part.entry.octets.now t b.start b.len)) out.new result }
{
    match number_of(part, t, b) {
        Some((key, v)) => put_number(out, at, depth, key, v),
        None => put_hex_part(out, at, depth, VALUE_HEX, part.base + b.start, b.len),
    }
}

// One parameter.
fn put_param(out: &mut [u64], at: usize, depth: u8, part: Part, t: u8, b: Body) -> usize
    requires { (depth < 15) × (b.start + b.len ≤ length part.octets.now) }
    ensures { Emits out.old at (flat depth (param part.entry.base part.entry.octets.now t b.start b.len)) out.new result }
{
    let opened = open_object(out, at, depth, 0);
    let coded = put_octet_leaf(out, opened, depth + 1, CODE, t);
    let named = put_text_if(out, coded, depth + 1, NAME, cotp_param_name(t));
    let shown = put_value(out, named, depth + 1, part, t, b);
    close_group(out, shown, depth)
}

#[derive(Clone, Copy)]
struct ParamList<'a> {
    depth: u8,
    part: Part<'a>,
    ghost low: { depth < 14 },
}

impl Entries for ParamList<'_> {
    ghost size = { λ p. length p.part.octets.now };

    ghost depth = { λ p. p.depth };

    ghost body = { λ p. tlv_at p.part.octets.now };

    ghost items = { λ p i start n. param p.part.base p.part.octets.now (get_or p.part.octets.now i 0) start n };

    ghost listed = { λ p i start n f xs. refl };

    fn len(&self) -> usize {
        self.part.octets.len()
    }

    fn level(&self) -> u8 {
        self.depth
    }

    fn body_at(&self, i: usize) -> Option<Body> {
        tlv_at(self.part.octets, i)
    }

    fn put_entry(&self, out: &mut [u64], at: usize, i: usize, b: Body) -> usize {
        put_param(out, at, self.depth + 1, self.part, self.part.octets[i], b)
    }
}

// The parameters of a part that stands at place base of the input.
pub fn params(out: &mut [u64], at: usize, depth: u8, base: usize, s: &[u8]) -> usize
    requires { (depth < 15) × (base + length s.now < 65536) }
    ensures { Emits out.old at (flat depth (param_items base s.now)) out.new result }
{
    // Not `put_entries`: its entries stand in a list, so never at depth 0. No `for`: where one begins, the one before says.
    let mut i = 0;
    let mut next = at;
    while i < s.len() {
        let Some(b) = tlv_at(s, i) else {
            return next;
        };
        next = put_param(out, next, depth, Part { base, octets: s }, s[i], b);
        i = b.start + b.len;
    }
    next
}

// As a member, which is left out where there is none.
pub fn put_params(out: &mut [u64], at: usize, depth: u8, base: usize, s: &[u8]) -> usize
    requires { (depth < 14) × (base + length s.now < 65536) }
    ensures { Emits out.old at (flat depth (in_list k_params (param_items base s.now))) out.new result }
{
    let part = Part { base, octets: s };
    put_list(&ParamList { depth, part }, out, at, PARAMS, 0)
}
