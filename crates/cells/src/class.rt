// What a cell is inside a group, for an input of n octets.
ghost use Rattle.std.specs.Prelude.{◌≡◌};
ghost use Rattle.cells.specs.Read.{field_ok, below as isBelow, text_ok, prefix_ok, leaf_ok, bare as is_bare, closes as isClosing, placed as is_placed, item_class, class_of};

use crate::cell::{
    CLOSE, FLAG, LIST, NUMBER, OBJECT, OCTET, PART, PREFIX, TEXT, WORD, depth, field, form, len,
    value,
};

#[derive(Clone, Copy, PartialEq, Eq)]
pub enum Class {
    Leafy,
    Object,
    Entries,
    Close,
}

#[tactic(auto, unfolding(crate::specs::Read::field_ok))]
fn field_ok(keyed: bool, number: u8) -> bool
    ensures { result ≡ field_ok keyed number }
{
    if keyed {
        0 < number && number <= names::key::LAST
    } else {
        number == 0
    }
}

#[tactic(auto, unfolding(crate::specs::Read::text_ok))]
fn text_ok(size: u16, number: u32) -> bool
    ensures { result ≡ text_ok size number }
{
    size == 0 && 0 < number && number <= names::text::LAST
}

#[tactic(auto, unfolding(crate::specs::Read::prefix_ok))]
fn prefix_ok(n: usize, size: u16, v: u32) -> bool
    ensures { result ≡ prefix_ok n size v }
{
    size as u32 == (v % 256 + 7) / 8 && (v / 256) as usize + size as usize <= n
}

#[tactic(auto, unfolding(crate::specs::Read::below))]
fn below(size: u16, v: u32, bound: u32) -> bool
    ensures { result ≡ isBelow bound size v }
{
    size == 0 && v < bound
}

#[tactic(auto, unfolding(crate::specs::Read::leaf_ok))]
fn leaf_ok(n: usize, kind: u8, size: u16, v: u32) -> bool
    ensures { result ≡ leaf_ok n kind size v }
{
    match kind {
        NUMBER | WORD => size == 0,
        FLAG => below(size, v, 2),
        PART => v as usize + size as usize <= n,
        TEXT => text_ok(size, v),
        PREFIX => prefix_ok(n, size, v),
        OCTET => below(size, v, 256),
        _ => false,
    }
}

#[tactic(auto, unfolding(crate::specs::Read::bare))]
fn bare(c: u64) -> bool
    ensures { result ≡ is_bare c }
{
    len(c) == 0 && value(c) == 0
}

#[tactic(auto, unfolding(crate::specs::Read::closes))]
fn closes(around: u8, c: u64) -> bool
    ensures { result ≡ isClosing around c }
{
    depth(c) + 1 == around && field(c) == 0 && bare(c)
}

#[tactic(auto, unfolding(crate::specs::Read::placed))]
fn placed(keyed: bool, around: u8, c: u64) -> bool
    ensures { result ≡ is_placed keyed around c }
{
    depth(c) == around && field_ok(keyed, field(c))
}

#[tactic(auto, unfolding(crate::specs::Read::item_class))]
fn item_class(n: usize, c: u64) -> Option<Class>
    ensures { result ≡ item_class n c }
{
    match form(c) {
        OBJECT => bare(c).then_some(Class::Object),
        LIST => bare(c).then_some(Class::Entries),
        kind => leaf_ok(n, kind, len(c), value(c)).then_some(Class::Leafy),
    }
}

// Inside an object (keyed) or a list, with so many groups open around it; nothing where it is not well formed.
#[tactic(auto, unfolding(crate::specs::Read::class_of))]
pub fn class_of(n: usize, keyed: bool, around: u8, c: u64) -> Option<Class>
    ensures { result ≡ class_of n keyed around c }
{
    if form(c) == CLOSE {
        closes(around, c).then_some(Class::Close)
    } else if placed(keyed, around, c) {
        item_class(n, c)
    } else {
        None
    }
}
