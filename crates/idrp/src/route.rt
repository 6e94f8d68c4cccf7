// The withdrawn routes of an UPDATE.
ghost use Rattle.std.specs.Prelude.{◌+◌, ◌*◌, ◌≤◌, length};
ghost use Rattle.octets.specs.Emit.{Emits};
ghost use Rattle.cells.specs.Items.{flat};
ghost use Rattle.idrp.specs.Update.{route_items, withdrawn, routes_member};

use crate::octet::{four_at, two_at};
use cells::emit::{close_group, open_list, put_word_leaf};
use names::key::WITHDRAWN_ROUTES;

// So many numbers of four octets, behind their count.
fn routes(out: &mut [u64], at: usize, s: &[u8], n: usize) -> usize
    requires { 2 + 4 * n ≤ length s.now }
    ensures { Emits out.old at (flat 3 (route_items s.now n 2)) out.new result }
{
    let mut next = at;
    for k in 0..n {
        next = put_word_leaf(out, next, 3, 0, four_at(s, 2 + 4 * k));
    }
    next
}

// As a member, which is left out where there is none.
pub fn put_routes(out: &mut [u64], at: usize, s: &[u8]) -> usize
    requires { (2 ≤ length s.now) × (2 + 4 * withdrawn s.now ≤ length s.now) }
    ensures { Emits out.old at (flat 2 (routes_member s.now)) out.new result }
{
    let n = two_at(s, 0);
    if n == 0 {
        return at;
    }
    let opened = open_list(out, at, 2, WITHDRAWN_ROUTES);
    let shown = routes(out, opened, s, n);
    close_group(out, shown, 2)
}
