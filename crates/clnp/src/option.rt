// The options of a CLNP header.
ghost use Rattle.std.specs.Prelude.{◌≡◌, ◌+◌, ◌<◌, ◌≤◌, length, get_or, refl};
ghost use Rattle.octets.specs.Emit.{Emits};
ghost use Rattle.names.specs.Numbers.{k_options};
ghost use Rattle.cells.specs.Items.{in_list, flat};
ghost use Rattle.fields.specs.Tlv.{tlv_at};
ghost use Rattle.clnp.specs.Options.{secured, option_value, option, option_items};

use crate::label::put_label;
use cells::emit::{
    close_group, open_object, put_hex_part, put_number, put_octet_leaf, put_text_number,
};
use cells::entry::Body;
use cells::walk::{Entries, put_entries, put_list};
use codes::clnp_option_name;
use fields::member::put_text_if;
use fields::part::Part;
use fields::tlv::tlv_at;
use names::key::{
    CODE, NAME, OPTIONS, PRIORITY, REASON, SECURITY_FORMAT, SECURITY_LABEL, VALUE_HEX,
};
use names::text::GLOBALLY_UNIQUE;

// A label of the globally unique format stands behind the first octet.
fn put_security(out: &mut [u64], at: usize, part: Part, b: Body) -> usize
    requires { (0 < b.len) × (b.start + b.len ≤ length part.octets.now) }
    ensures { Emits out.old at (flat 3 (secured part.entry.base part.entry.octets.now b.start b.len)) out.new result }
{
    let format = put_text_number(out, at, 3, SECURITY_FORMAT, GLOBALLY_UNIQUE);
    let opened = open_object(out, format, 3, SECURITY_LABEL);
    let label = &part.octets[b.start + 1..b.start + b.len];
    let shown = put_label(out, opened, part.base + b.start + 1, label);
    close_group(out, shown, 3)
}

// A value that nothing else is known of is given by its place in the input.
#[tactic(auto, unfolding(crate::specs::Options::option_value))]
fn put_value(out: &mut [u64], at: usize, part: Part, t: u8, b: Body) -> usize
    requires { b.start + b.len ≤ length part.octets.now }
    ensures { Emits out.old at (flat 3 (option_value part.entry.base part.entry.octets.now t b.start b.len)) out.new result }
{
    let s = part.octets;
    match (t, b.len) {
        (0xCD, 1) => put_number(out, at, 3, PRIORITY, s[b.start] as u32),
        (0xC1, 1) => put_number(out, at, 3, REASON, s[b.start] as u32),
        (0xC5, 1..) if s[b.start] == 0xC0 => put_security(out, at, part, b),
        _ => put_hex_part(out, at, 3, VALUE_HEX, part.base + b.start, b.len),
    }
}

fn put_option(out: &mut [u64], at: usize, part: Part, t: u8, b: Body) -> usize
    requires { b.start + b.len ≤ length part.octets.now }
    ensures { Emits out.old at (flat 2 (option part.entry.base part.entry.octets.now t b.start b.len)) out.new result }
{
    let opened = open_object(out, at, 2, 0);
    let coded = put_octet_leaf(out, opened, 3, CODE, t);
    let named = put_text_if(out, coded, 3, NAME, clnp_option_name(t));
    let shown = put_value(out, named, part, t, b);
    close_group(out, shown, 2)
}

#[derive(Clone, Copy)]
struct OptionList<'a> {
    part: Part<'a>,
}

impl Entries for OptionList<'_> {
    ghost size = { λ o. length o.part.octets.now };

    ghost depth = { λ o. 1 };

    ghost body = { λ o. tlv_at o.part.octets.now };

    ghost items = { λ o i start n. option o.part.base o.part.octets.now (get_or o.part.octets.now i 0) start n };

    ghost listed = { λ o i start n f xs. refl };

    fn len(&self) -> usize {
        self.part.octets.len()
    }

    fn level(&self) -> u8 {
        1
    }

    fn body_at(&self, i: usize) -> Option<Body> {
        tlv_at(self.part.octets, i)
    }

    fn put_entry(&self, out: &mut [u64], at: usize, i: usize, b: Body) -> usize {
        put_option(out, at, self.part, self.part.octets[i], b)
    }
}

// The options of a part that stands at place base of the input.
pub fn options(out: &mut [u64], at: usize, base: usize, s: &[u8]) -> usize
    requires { base + length s.now < 65536 }
    ensures { Emits out.old at (flat 2 (option_items base s.now)) out.new result }
{
    put_entries(
        &OptionList {
            part: Part { base, octets: s },
        },
        out,
        at,
        0,
    )
}

// As a member, which is left out where there is none.
pub fn put_options(out: &mut [u64], at: usize, base: usize, s: &[u8]) -> usize
    requires { base + length s.now < 65536 }
    ensures { Emits out.old at (flat 1 (in_list k_options (option_items base s.now))) out.new result }
{
    let part = Part { base, octets: s };
    put_list(&OptionList { part }, out, at, OPTIONS, 0)
}
