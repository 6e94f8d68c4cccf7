// The options of an ESH or ISH.
ghost use Rattle.std.specs.Prelude.{◌+◌, ◌<◌, length, get_or, refl};
ghost use Rattle.octets.specs.Emit.{Emits};
ghost use Rattle.names.specs.Numbers.{k_options};
ghost use Rattle.cells.specs.Items.{in_list, flat};
ghost use Rattle.fields.specs.Tlv.{tlv_at};
ghost use Rattle.esis.specs.Pdu.{option, option_items};

use cells::emit::{close_group, open_object, put_hex_part, put_number, put_text_number};
use cells::entry::Body;
use cells::walk::{Entries, put_entries, put_list};
use codes::esis_option_name;
use fields::part::Part;
use fields::tlv::tlv_at;
use names::key::{OPTIONS, TYPE, TYPE_CODE, VALUE_HEX};

// An option of type t, whose value is n octets at a place of the input.
fn put_option(out: &mut [u64], at: usize, t: u8, from: usize, n: usize) -> usize
    requires { from + n < 65536 }
    ensures { Emits out.old at (flat 2 (option t from n)) out.new result }
{
    let opened = open_object(out, at, 2, 0);
    let typed = put_text_number(out, opened, 3, TYPE, esis_option_name(t));
    let coded = put_number(out, typed, 3, TYPE_CODE, t as u32);
    let shown = put_hex_part(out, coded, 3, VALUE_HEX, from, n);
    close_group(out, shown, 2)
}

#[derive(Clone, Copy)]
struct OptionList<'a> {
    part: Part<'a>,
}

impl Entries for OptionList<'_> {
    ghost size = { λ o. length o.part.octets.now };

    ghost depth = { λ o. 1 };

    ghost body = { λ o. tlv_at o.part.octets.now };

    ghost items = { λ o i start n. option (get_or o.part.octets.now i 0) (o.part.base + start) n };

    ghost listed = { λ o i start n f xs. refl };

    fn len(&self) -> usize {
        self.part.octets.len()
    }

    fn level(&self) -> u8 {
        1
    }

    fn body_at(&self, i: usize) -> Option<Body> {
        tlv_at(self.part.octets, i)
    }

    fn put_entry(&self, out: &mut [u64], at: usize, i: usize, b: Body) -> usize {
        put_option(
            out,
            at,
            self.part.octets[i],
            self.part.base + b.start,
            b.len,
        )
    }
}

// The options of a part that stands at place base of the input.
pub fn options(out: &mut [u64], at: usize, base: usize, s: &[u8]) -> usize
    requires { base + length s.now < 65536 }
    ensures { Emits out.old at (flat 2 (option_items base s.now)) out.new result }
{
    let part = Part { base, octets: s };
    put_entries(&OptionList { part }, out, at, 0)
}

// As a member, which is left out where there is none.
pub fn put_options(out: &mut [u64], at: usize, base: usize, s: &[u8]) -> usize
    requires { base + length s.now < 65536 }
    ensures { Emits out.old at (flat 1 (in_list k_options (option_items base s.now))) out.new result }
{
    put_list(
        &OptionList {
            part: Part { base, octets: s },
        },
        out,
        at,
        OPTIONS,
        0,
    )
}
