// The NLRI of an UPDATE.
ghost use Rattle.std.specs.Prelude.{◌≡◌, ◌+◌, ◌<◌, ◌≤◌, IfSome, length, refl};
ghost use Rattle.octets.specs.Emit.{Emits};
ghost use Rattle.octets.specs.Text.{pick};
ghost use Rattle.names.specs.Numbers.{k_nlri};
ghost use Rattle.cells.specs.Items.{in_list, flat};
ghost use Rattle.cells.specs.Walk.{items_from};
ghost use Rattle.idrp.specs.Update.{nlri_at, is_clnp, nlri, nlri_step};

use crate::octet::two_at;
use crate::prefix::put_prefixes;
use cells::emit::{close_group, open_object, put_flag, put_number};
use cells::entry::Body;
use cells::walk::{Entries, put_list};
use fields::part::Part;
use names::key::{CLNP, NLRI, PROTO_TYPE};
use octets::read::wide;

// The addresses of the entry at position i: a protocol id and the addresses, each behind its length.
#[tactic(auto, unfolding(crate::specs::Update::nlri_at))]
fn nlri_at(s: &[u8], i: usize) -> Option<Body>
    requires { i ≤ length s.now }
    ensures value { result ≡ nlri_at s.now i }
    ensures within { IfSome result (λ b. (i + 7 ≤ length s.now) × (i < b.start + b.len) × (b.start + b.len ≤ length s.now)) }
{
    if i + 7 <= s.len() {
        let start = i + 4 + wide(s[i + 1]);
        if start <= s.len() {
            let len = two_at(s, start - 2);
            if start + len <= s.len() {
                return Some(Body { start, len });
            }
        }
    }
    None
}

// A protocol id of one octet, which is CLNP's.
fn is_clnp(s: &[u8], i: usize) -> u8
    requires { i + 7 ≤ length s.now }
    ensures { result ≡ pick (is_clnp s.now i) 1 0 }
{
    if s[i] == 1 && s[i + 1] == 1 && s[i + 2] == 0x81 {
        1
    } else {
        0
    }
}

fn put_entry(out: &mut [u64], at: usize, body: Part, i: usize, b: Body) -> usize
    requires { (i + 7 ≤ length body.octets.now) × (b.start + b.len ≤ length body.octets.now) }
    ensures { Emits out.old at (flat 3 (nlri body.entry.base body.entry.octets.now i b.start b.len)) out.new result }
{
    let s = body.octets;
    let opened = open_object(out, at, 3, 0);
    let typed = put_number(out, opened, 4, PROTO_TYPE, s[i] as u32);
    let told = put_flag(out, typed, 4, CLNP, is_clnp(s, i));
    let shown = put_prefixes(out, told, body.base + b.start, &s[b.start..b.start + b.len]);
    close_group(out, shown, 3)
}

#[derive(Clone, Copy)]
struct Nlri<'a> {
    body: Part<'a>,
}

impl Entries for Nlri<'_> {
    ghost size = { λ n. length n.body.octets.now };

    ghost depth = { λ n. 2 };

    ghost body = { λ n. nlri_at n.body.octets.now };

    ghost items = { λ n. nlri n.body.base n.body.octets.now };

    ghost listed = { λ n i start len f xs. refl };

    fn len(&self) -> usize {
        self.body.octets.len()
    }

    fn level(&self) -> u8 {
        2
    }

    fn body_at(&self, i: usize) -> Option<Body> {
        nlri_at(self.body.octets, i)
    }

    fn put_entry(&self, out: &mut [u64], at: usize, i: usize, b: Body) -> usize {
        put_entry(out, at, self.body, i, b)
    }
}

// The entries from a place of a body on, which stands at place base of the input, as a member, which is left out where there is
// none.
pub fn put_nlri(out: &mut [u64], at: usize, base: usize, s: &[u8], from: usize) -> usize
    requires { (from ≤ length s.now) × (base + length s.now < 65536) }
    ensures { Emits out.old at (flat 2 (in_list k_nlri (items_from (nlri_step base s.now) (length s.now) from))) out.new result }
{
    let body = Part { base, octets: s };
    put_list(&Nlri { body }, out, at, NLRI, from)
}
