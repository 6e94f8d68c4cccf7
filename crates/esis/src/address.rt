// The addresses of an ESH or ISH, each a length octet and its octets.
ghost use Rattle.std.specs.Prelude.{◌≡◌, ◌<◌, ◌≤◌, length};
ghost use Rattle.octets.specs.Emit.{Emits};
ghost use Rattle.names.specs.Numbers.{k_addresses};
ghost use Rattle.cells.specs.Items.{in_list, flat};
ghost use Rattle.esis.specs.Pdu.{address_ok, address_items, address_end};

use cells::emit::{close_group, open_list, put_hex_part};
use names::key::ADDRESSES;
use octets::read::wide;

// At most 20 octets behind the length octet at p, which are there.
pub fn address_ok(b: &[u8], p: usize) -> bool
    requires { p < length b.now }
    ensures { result ≡ address_ok b.now p }
{
    let n = wide(b[p]);
    p + 1 + n <= b.len() && n <= 20
}

// At most n addresses from place p on, up to the first that is not whole or too long.
pub fn addresses(out: &mut [u64], at: usize, b: &[u8], n: u8, p: usize) -> usize
    requires { length b.now < 65536 }
    ensures { Emits out.old at (flat 2 (address_items b.now n p)) out.new result }
{
    let mut i = p;
    let mut next = at;
    for _ in 0..n {
        if b.len() <= i || !address_ok(b, i) {
            return next;
        }
        let len = wide(b[i]);
        next = put_hex_part(out, next, 2, 0, i + 1, len);
        i = i + 1 + len;
    }
    next
}

// As a member, which is left out where there is none: it opens where an address is known.
pub fn put_addresses(out: &mut [u64], at: usize, b: &[u8], n: u8, p: usize) -> usize
    requires { length b.now < 65536 }
    ensures { Emits out.old at (flat 1 (in_list k_addresses (address_items b.now n p))) out.new result }
{
    if n == 0 || b.len() <= p || !address_ok(b, p) {
        return at;
    }
    let opened = open_list(out, at, 1, ADDRESSES);
    let shown = addresses(out, opened, b, n, p);
    close_group(out, shown, 1)
}

// The place behind them: behind the length octet of one that is not whole or too long.
pub fn address_end(b: &[u8], n: u8, p: usize) -> usize
    requires { p ≤ length b.now }
    ensures { (result ≡ address_end b.now n p) × (result ≤ length b.now) }
{
    let mut i = p;
    for _ in 0..n {
        if b.len() <= i {
            return i;
        }
        if !address_ok(b, i) {
            return i + 1;
        }
        i = i + 1 + wide(b[i]);
    }
    i
}
