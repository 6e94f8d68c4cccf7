// An ES-IS PDU's record as cells.
ghost use Rattle.std.specs.Prelude.{◌≡◌, ◌<◌, ◌≤◌, length, get_or};
ghost use Rattle.octets.specs.Emit.{Emits};
ghost use Rattle.octets.specs.Read.{be16};
ghost use Rattle.names.specs.Numbers.{k_type, k_holding_time_s};
ghost use Rattle.cells.specs.Items.{none, leaf, number, text, record_of, flat, ◌⊕◌};
ghost use Rattle.esis.specs.Pdu.{type_code, type_of, address_count, addresses_at, options_at, option_member, head_members, members_of};

use crate::address::{address_end, put_addresses};
use crate::option::put_options;
use cells::emit::{close_group, open_object, put_number, put_text_number};
use names::key::{HOLDING_TIME_S, PAYLOAD_LEN, PROTOCOL, TYPE};
use names::text::{ES_IS, ESH, ISH, QUESTION, RD};
use octets::read::u16_of;

fn type_name(t: u8) -> u32
    ensures { result ≡ type_of t }
{
    match t {
        2 => ESH,
        4 => ISH,
        6 => RD,
        _ => QUESTION,
    }
}

// An ESH has a count of addresses, an ISH one address, and others none.
fn address_count(b: &[u8]) -> u8
    requires { 8 < length b.now }
    ensures { result ≡ address_count b.now }
{
    match b[4] % 32 {
        2 => b.get(9).copied().unwrap_or(0),
        4 => 1,
        _ => 0,
    }
}

fn addresses_at(b: &[u8]) -> usize
    requires { 8 < length b.now }
    ensures { (result ≡ addresses_at b.now) × (result ≤ length b.now) }
{
    if b[4] % 32 == 2 && 9 < b.len() { 10 } else { 9 }
}

fn put_head(out: &mut [u64], at: usize, b: &[u8]) -> usize
    requires { 8 < length b.now }
    ensures { Emits out.old at (flat 1 (leaf k_type (text (type_of (type_code b.now))) none ⊕ leaf k_holding_time_s (number (be16 (get_or b.now 5 0) (get_or b.now 6 0))) none)) out.new result }
{
    let typed = put_text_number(out, at, 1, TYPE, type_name(b[4] % 32));
    put_number(out, typed, 1, HOLDING_TIME_S, u16_of(b[5], b[6]) as u32)
}

// The options behind the addresses, of an ESH or ISH.
fn put_behind(out: &mut [u64], at: usize, b: &[u8], p: usize) -> usize
    requires { (8 < length b.now) × (length b.now < 65536) × (p ≡ options_at b.now) × (p ≤ length b.now) }
    ensures { Emits out.old at (flat 1 (option_member b.now)) out.new result }
{
    let t = b[4] % 32;
    if t == 2 || t == 4 {
        return put_options(out, at, p, &b[p..]);
    }
    at
}

fn put_members(out: &mut [u64], at: usize, b: &[u8]) -> usize
    requires { (8 < length b.now) × (length b.now < 65536) }
    ensures { Emits out.old at (flat 1 (head_members b.now)) out.new result }
{
    let n = address_count(b);
    let p = addresses_at(b);
    let head = put_head(out, at, b);
    let addressed = put_addresses(out, head, b, n, p);
    put_behind(out, addressed, b, address_end(b, n, p))
}

// Under nine octets only what it is and how long.
pub fn put_record(out: &mut [u64], at: usize, b: &[u8]) -> usize
    requires { length b.now < 65536 }
    ensures { Emits out.old at (flat 0 (record_of (members_of b.now))) out.new result }
{
    let opened = open_object(out, at, 0, 0);
    let protocol = put_text_number(out, opened, 1, PROTOCOL, ES_IS);
    let sized = put_number(out, protocol, 1, PAYLOAD_LEN, b.len() as u32);
    if b.len() < 9 {
        return close_group(out, sized, 0);
    }
    let shown = put_members(out, sized, b);
    close_group(out, shown, 0)
}
