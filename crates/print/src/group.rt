// Objects and lists: their two printers call each other, as document 01 has it, and the remaining cells fall. A group that was
// printed gives the places where the cells go on, and the text; nothing where its cells are not well formed.
ghost use Rattle.std.specs.Prelude.{true, false};
ghost use Rattle.print.specs.Outcome.{Outcome, WholeOutcome};

use crate::leaf::{put_member, put_open};
use cells::cell::{OBJECT, cell};
use cells::class::{Class, class_of};
use octets::emit::put_octet;

// The members of an object whose opening cell stands before place from, and the closing bracket.
#[cycle(list_object)]
fn object(
    out: &mut [u8],
    at: usize,
    cells: &[u64],
    from: usize,
    depth: u8,
    input: &[u8],
) -> Option<(usize, usize)>
    ensures { Outcome cells.now input.now true from depth out.old at out.new result }
{
    // No `for`, here and in `list`: the place goes on behind a group that is printed on the way.
    let mut i = from;
    let mut next = at;
    let mut first = true;
    while i < cells.len() {
        let c = cells[i];
        let Some(class) = class_of(input.len(), true, depth, c) else {
            return None;
        };
        i += 1;
        match class {
            Class::Close => return Some((i, put_octet(out, next, b'}'))),
            Class::Leafy => next = put_member(out, next, input, true, first, c),
            Class::Object => {
                let begun = put_open(out, next, true, first, c, b'{');
                let Some((j, p)) = object(out, begun, cells, i, depth + 1, input) else {
                    return None;
                };
                i = j;
                next = p;
            }
            Class::Entries => {
                let begun = put_open(out, next, true, first, c, b'[');
                let Some((j, p)) = list(out, begun, cells, i, depth + 1, input) else {
                    return None;
                };
                i = j;
                next = p;
            }
        }
        first = false;
    }
    None
}

// The entries of a list whose opening cell stands before place from, and the closing bracket.
#[cycle(list_object)]
fn list(
    out: &mut [u8],
    at: usize,
    cells: &[u64],
    from: usize,
    depth: u8,
    input: &[u8],
) -> Option<(usize, usize)>
    ensures { Outcome cells.now input.now false from depth out.old at out.new result }
{
    let mut i = from;
    let mut next = at;
    let mut first = true;
    while i < cells.len() {
        let c = cells[i];
        let Some(class) = class_of(input.len(), false, depth, c) else {
            return None;
        };
        i += 1;
        match class {
            Class::Close => return Some((i, put_octet(out, next, b']'))),
            Class::Leafy => next = put_member(out, next, input, false, first, c),
            Class::Object => {
                let begun = put_open(out, next, false, first, c, b'{');
                let Some((j, p)) = object(out, begun, cells, i, depth + 1, input) else {
                    return None;
                };
                i = j;
                next = p;
            }
            Class::Entries => {
                let begun = put_open(out, next, false, first, c, b'[');
                let Some((j, p)) = list(out, begun, cells, i, depth + 1, input) else {
                    return None;
                };
                i = j;
                next = p;
            }
        }
        first = false;
    }
    None
}

// The whole text, written from the output's start: cells that are one object. The place behind it.
pub fn print_whole(out: &mut [u8], cells: &[u64], input: &[u8]) -> Option<usize>
    ensures { WholeOutcome cells.now input.now out.old out.new result }
{
    if cells.len() == 0 || cells[0] != cell(0, OBJECT, 0, 0, 0) {
        return None;
    }
    let begun = put_octet(out, 0, b'{');
    let Some((j, p)) = object(out, begun, cells, 1, 1, input) else {
        return None;
    };
    if j == cells.len() { Some(p) } else { None }
}
