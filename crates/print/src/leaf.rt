// The text of a leaf, and what stands in front of an item.
ghost use Rattle.std.specs.Prelude.{◌≡◌, true, List, [], ◌∷◌, ◌++◌, ◌+◌, ◌≤◌, length};
ghost use Rattle.octets.specs.Emit.{Emits};
ghost use Rattle.cells.specs.Cell.{field_of, form_of, len_of, value_of};
ghost use Rattle.cells.specs.Items.{flag, part, text, prefix, octet, word};
ghost use Rattle.cells.specs.Read.{leaf_of, leaf_in, leaf_ok};
ghost use Rattle.print.specs.Json.{comma, name, lead, leaf_text};

use cells::cell::{FLAG, NUMBER, OCTET, PART, PREFIX, TEXT, field, form, len, value};
use names::key::put_key;
use names::text::put_text;
use octets::emit::{put_octet, put_octets};
use octets::text::{put_0x, put_decimal, put_hex_part, put_hex_word};

fn put_comma(out: &mut [u8], at: usize, first: bool) -> usize
    ensures { Emits out.old at (comma first) out.new result }
{
    if first {
        return at;
    }
    put_octet(out, at, b',')
}

fn put_name(out: &mut [u8], at: usize, keyed: bool, number: u8) -> usize
    ensures { Emits out.old at (name keyed number) out.new result }
{
    if keyed {
        let quoted = put_octet(out, at, b'"');
        let named = put_key(out, quoted, number);
        return put_octets(out, named, b"\":");
    }
    at
}

fn put_lead(out: &mut [u8], at: usize, keyed: bool, first: bool, number: u8) -> usize
    ensures { Emits out.old at (lead keyed first number) out.new result }
{
    let next = put_comma(out, at, first);
    put_name(out, next, keyed, number)
}

fn put_flag(out: &mut [u8], at: usize, v: u32) -> usize
    ensures { Emits out.old at (leaf_text [] (flag v)) out.new result }
{
    if v == 1 {
        return put_octets(out, at, b"true");
    }
    put_octets(out, at, b"false")
}

fn put_part(out: &mut [u8], at: usize, input: &[u8], from: usize, size: usize) -> usize
    requires { from + size ≤ length input.now }
    ensures { Emits out.old at (leaf_text input.now (part from size)) out.new result }
{
    let quoted = put_octet(out, at, b'"');
    let shown = put_hex_part(out, quoted, input, from, from + size);
    put_octet(out, shown, b'"')
}

fn put_quoted_text(out: &mut [u8], at: usize, number: u32) -> usize
    ensures { Emits out.old at (leaf_text [] (text number)) out.new result }
{
    let quoted = put_octet(out, at, b'"');
    let shown = put_text(out, quoted, number);
    put_octet(out, shown, b'"')
}

fn put_prefix(out: &mut [u8], at: usize, input: &[u8], from: usize, size: usize, bits: u32) -> usize
    requires { from + size ≤ length input.now }
    ensures { Emits out.old at (leaf_text input.now (prefix from size bits)) out.new result }
{
    let quoted = put_octet(out, at, b'"');
    let digits = put_hex_part(out, quoted, input, from, from + size);
    let slash = put_octet(out, digits, b'/');
    let counted = put_decimal(out, slash, bits);
    put_octet(out, counted, b'"')
}

fn put_quoted_octet(out: &mut [u8], at: usize, x: u8) -> usize
    ensures { Emits out.old at (leaf_text [] (octet x)) out.new result }
{
    let quoted = put_octet(out, at, b'"');
    let shown = put_0x(out, quoted, x);
    put_octet(out, shown, b'"')
}

fn put_word(out: &mut [u8], at: usize, n: u32) -> usize
    ensures { Emits out.old at (leaf_text [] (word n)) out.new result }
{
    let quoted = put_octet(out, at, b'"');
    let shown = put_hex_word(out, quoted, n);
    put_octet(out, shown, b'"')
}

fn put_leaf(out: &mut [u8], at: usize, input: &[u8], kind: u8, size: u16, v: u32) -> usize
    requires { leaf_ok (length input.now) kind size v ≡ true }
    ensures { Emits out.old at (leaf_text input.now (leaf_of kind size v)) out.new result }
{
    if kind == NUMBER {
        return put_decimal(out, at, v);
    }
    if kind == FLAG {
        return put_flag(out, at, v);
    }
    if kind == PART {
        return put_part(out, at, input, v as usize, size as usize);
    }
    if kind == TEXT {
        return put_quoted_text(out, at, v);
    }
    if kind == PREFIX {
        return put_prefix(out, at, input, (v / 256) as usize, size as usize, v % 256);
    }
    if kind == OCTET {
        return put_quoted_octet(out, at, v as u8);
    }
    put_word(out, at, v)
}

// A comma and a key where they belong, and a leaf's text.
pub fn put_member(
    out: &mut [u8],
    at: usize,
    input: &[u8],
    keyed: bool,
    first: bool,
    c: u64,
) -> usize
    requires { leaf_ok (length input.now) (form_of c) (len_of c) (value_of c) ≡ true }
    ensures { Emits out.old at (lead keyed first (field_of c) ++ leaf_text input.now (leaf_in c)) out.new result }
{
    let next = put_lead(out, at, keyed, first, field(c));
    put_leaf(out, next, input, form(c), len(c), value(c))
}

// A comma and a key where they belong, and a bracket.
pub fn put_open(out: &mut [u8], at: usize, keyed: bool, first: bool, c: u64, bracket: u8) -> usize
    ensures { Emits out.old at (lead keyed first (field_of c) ++ (bracket ∷ [])) out.new result }
{
    let next = put_lead(out, at, keyed, first, field(c));
    put_octet(out, next, bracket)
}
