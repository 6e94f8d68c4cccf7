// A walk over a part of the octets by its entries, up to the first that is not whole.
ghost use Rattle.std.specs.Prelude.{◌≡◌, false, ◌+◌, ◌≤◌, ◌<◌, ℕ, Option, Some, IfSome};
ghost use Rattle.octets.specs.Emit.{Emits};
ghost use Rattle.cells.specs.Items.{Items, none, group, in_list, flat, ◌⊕◌};
ghost use Rattle.cells.specs.Walk.{step_of, items_from};
ghost use Rattle.cells.specs.declared.entry.Body.{Body};

use crate::emit::{close_group, open_list};
use crate::entry::Body;

// A part that holds entries: what stands at a position, and the cells of an entry. Its entries stand in a list that opens at depth.
pub trait Entries {
    ghost size: { Self → ℕ };

    ghost depth: { Self → ℕ };

    ghost body: { Self → ℕ → Option Body };

    ghost items: { Self → ℕ → ℕ → ℕ → Items };

    fn len(&self) -> usize
        ensures { result ≡ size self.now };

    fn level(&self) -> u8
        ensures { (result ≡ depth self.now) × (result < 15) };

    // An entry goes on, and stays within the part.
    fn body_at(&self, i: usize) -> Option<Body>
        requires { i < size self.now }
        ensures value { result ≡ body self.now i }
        ensures within { IfSome result (λ b. (i < b.start + b.len) × (b.start + b.len ≤ size self.now)) };

    fn put_entry(&self, out: &mut [u64], at: usize, i: usize, b: Body) -> usize
        requires { (body self.now i ≡ Some b) × (i < b.start + b.len) × (b.start + b.len ≤ size self.now) }
        ensures { Emits out.old at (flat (depth self.now + 1) (items self.now i b.start b.len)) out.new result };

    // An entry is something.
    ghost listed: { (s : Self) (i start len f : ℕ) (xs : Items) → in_list f (items s i start len ⊕ xs) ≡ group false f (items s i start len ⊕ xs) none };
}

// The entries from a position on.
pub fn put_entries<E: Entries>(e: &E, out: &mut [u64], at: usize, from: usize) -> usize
    ensures { Emits out.old at (flat (E.depth e.now + 1) (items_from (λ i. step_of (E.items e.now i) (E.body e.now i)) (E.size e.now) from)) out.new result }
{
    // No `for`: where an entry begins, the one before it says.
    let mut i = from;
    let mut next = at;
    while i < e.len() {
        let Some(b) = e.body_at(i) else {
            return next;
        };
        next = e.put_entry(out, next, i, b);
        i = b.start + b.len;
    }
    next
}

// As a member, which is left out where there is none: it opens where an entry is known.
pub fn put_list<E: Entries>(e: &E, out: &mut [u64], at: usize, field: u8, from: usize) -> usize
    ensures { Emits out.old at (flat (E.depth e.now) (in_list field (items_from (λ i. step_of (E.items e.now i) (E.body e.now i)) (E.size e.now) from))) out.new result }
{
    if e.len() <= from {
        return at;
    }
    let Some(_) = e.body_at(from) else {
        return at;
    };
    let opened = open_list(out, at, e.level(), field);
    let shown = put_entries(e, out, opened, from);
    close_group(out, shown, e.level())
}
