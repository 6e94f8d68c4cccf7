// Emitters of cells: each writes at a place of the output, drops what falls past its end, and gives the next place.
ghost use Rattle.std.specs.Prelude.{true, false, ◌∷◌, [], ◌+◌, ◌*◌, ◌<◌};
ghost use Rattle.octets.specs.Emit.{Emits};
ghost use Rattle.cells.specs.Cell.{cell_of};
ghost use Rattle.cells.specs.Items.{number, flag, part, text, prefix, octet, word, none, leaf, flat, open_cell, close_cell};

use crate::cell::{CLOSE, FLAG, LIST, NUMBER, OBJECT, OCTET, PART, PREFIX, TEXT, WORD, cell};
use octets::emit::put_one;

pub fn put_cell(
    out: &mut [u64],
    at: usize,
    field: u8,
    form: u8,
    depth: u8,
    len: u16,
    value: u32,
) -> usize
    requires { (form < 16) × (depth < 16) }
    ensures { Emits out.old at (cell_of field form depth len value ∷ []) out.new result }
{
    put_one(out, at, cell(field, form, depth, len, value))
}

pub fn put_number(out: &mut [u64], at: usize, depth: u8, field: u8, n: u32) -> usize
    requires { depth < 16 }
    ensures { Emits out.old at (flat depth (leaf field (number n) none)) out.new result }
{
    put_cell(out, at, field, NUMBER, depth, 0, n)
}

pub fn put_flag(out: &mut [u64], at: usize, depth: u8, field: u8, n: u8) -> usize
    requires { depth < 16 }
    ensures { Emits out.old at (flat depth (leaf field (flag n) none)) out.new result }
{
    put_cell(out, at, field, FLAG, depth, 0, n as u32)
}

pub fn put_hex_part(
    out: &mut [u64],
    at: usize,
    depth: u8,
    field: u8,
    from: usize,
    len: usize,
) -> usize
    requires { (depth < 16) × (from + len < 65536) }
    ensures { Emits out.old at (flat depth (leaf field (part from len) none)) out.new result }
{
    put_cell(out, at, field, PART, depth, len as u16, from as u32)
}

pub fn put_text_number(out: &mut [u64], at: usize, depth: u8, field: u8, n: u32) -> usize
    requires { depth < 16 }
    ensures { Emits out.old at (flat depth (leaf field (text n) none)) out.new result }
{
    put_cell(out, at, field, TEXT, depth, 0, n)
}

pub fn put_prefix(
    out: &mut [u64],
    at: usize,
    depth: u8,
    field: u8,
    from: usize,
    len: usize,
    bits: u8,
) -> usize
    requires { (depth < 16) × (from + len < 65536) }
    ensures { Emits out.old at (flat depth (leaf field (prefix from len bits) none)) out.new result }
{
    put_cell(
        out,
        at,
        field,
        PREFIX,
        depth,
        len as u16,
        from as u32 * 256 + bits as u32,
    )
}

pub fn put_octet_leaf(out: &mut [u64], at: usize, depth: u8, field: u8, x: u8) -> usize
    requires { depth < 16 }
    ensures { Emits out.old at (flat depth (leaf field (octet x) none)) out.new result }
{
    put_cell(out, at, field, OCTET, depth, 0, x as u32)
}

pub fn put_word_leaf(out: &mut [u64], at: usize, depth: u8, field: u8, n: u32) -> usize
    requires { depth < 16 }
    ensures { Emits out.old at (flat depth (leaf field (word n) none)) out.new result }
{
    put_cell(out, at, field, WORD, depth, 0, n)
}

pub fn open_object(out: &mut [u64], at: usize, depth: u8, field: u8) -> usize
    requires { depth < 16 }
    ensures { Emits out.old at (open_cell depth true field ∷ []) out.new result }
{
    put_cell(out, at, field, OBJECT, depth, 0, 0)
}

pub fn open_list(out: &mut [u64], at: usize, depth: u8, field: u8) -> usize
    requires { depth < 16 }
    ensures { Emits out.old at (open_cell depth false field ∷ []) out.new result }
{
    put_cell(out, at, field, LIST, depth, 0, 0)
}

pub fn close_group(out: &mut [u64], at: usize, depth: u8) -> usize
    requires { depth < 16 }
    ensures { Emits out.old at (close_cell depth ∷ []) out.new result }
{
    put_cell(out, at, 0, CLOSE, depth, 0, 0)
}
