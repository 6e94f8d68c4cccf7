// A BISPDU's record as cells.
ghost use Rattle.std.specs.Prelude.{◌+◌, ◌<◌, ◌≤◌, length, get_or, drop};
ghost use Rattle.octets.specs.Emit.{Emits};
ghost use Rattle.cells.specs.Items.{record_of, flat};
ghost use Rattle.idrp.specs.Pdu.{body_members, number_members, credit_members, head_members, members_of};

use crate::error::put_error;
use crate::octet::four_at;
use crate::open::put_open;
use crate::update::{put_update, update_readable};
use cells::emit::{close_group, open_object, put_number, put_text_number};
use codes::idrp_pdu_type_name;
use names::key::{
    ACK, BISPDU_LEN, CREDIT_AVAIL, CREDIT_OFFERED, OPEN, PAYLOAD_LEN, PROTOCOL, SEQUENCE, TYPE,
    UPDATE,
};
use names::text::IDRP;
use octets::read::u16_of;

// An OPEN of less than six octets is left out.
fn put_opening(out: &mut [u64], at: usize, s: &[u8]) -> usize
    requires { (0 < length s.now) × (30 + length s.now < 65536) }
    ensures { Emits out.old at (flat 1 (body_members 1 s.now)) out.new result }
{
    if s.len() < 6 {
        return at;
    }
    let opened = open_object(out, at, 1, OPEN);
    let shown = put_open(out, opened, 30, s);
    close_group(out, shown, 1)
}

// An UPDATE that is cut in its routes or attributes is left out.
fn put_updating(out: &mut [u64], at: usize, s: &[u8]) -> usize
    requires { (0 < length s.now) × (30 + length s.now < 65536) }
    ensures { Emits out.old at (flat 1 (body_members 2 s.now)) out.new result }
{
    if update_readable(s) {
        let opened = open_object(out, at, 1, UPDATE);
        let shown = put_update(out, opened, 30, s);
        return close_group(out, shown, 1);
    }
    at
}

// The body stands behind a header of 30 octets.
fn put_body(out: &mut [u64], at: usize, t: u8, s: &[u8]) -> usize
    requires { (0 < length s.now) × (30 + length s.now < 65536) }
    ensures { Emits out.old at (flat 1 (body_members t s.now)) out.new result }
{
    if t == 1 {
        return put_opening(out, at, s);
    }
    if t == 2 {
        return put_updating(out, at, s);
    }
    if t == 3 {
        return put_error(out, at, s);
    }
    at
}

fn put_behind(out: &mut [u64], at: usize, b: &[u8]) -> usize
    requires { (4 ≤ length b.now) × (length b.now < 65536) }
    ensures { Emits out.old at (flat 1 (body_members (get_or b.now 3 0) (drop 30 b.now))) out.new result }
{
    if b.len() <= 30 {
        return at;
    }
    put_body(out, at, b[3], &b[30..])
}

fn put_numbers(out: &mut [u64], at: usize, b: &[u8]) -> usize
    ensures { Emits out.old at (flat 1 (number_members b.now)) out.new result }
{
    if b.len() < 12 {
        return at;
    }
    let sequence = put_number(out, at, 1, SEQUENCE, four_at(b, 4));
    put_number(out, sequence, 1, ACK, four_at(b, 8))
}

fn put_credit(out: &mut [u64], at: usize, b: &[u8]) -> usize
    ensures { Emits out.old at (flat 1 (credit_members b.now)) out.new result }
{
    if b.len() < 14 {
        return at;
    }
    let offered = put_number(out, at, 1, CREDIT_OFFERED, b[12] as u32);
    put_number(out, offered, 1, CREDIT_AVAIL, b[13] as u32)
}

fn put_head(out: &mut [u64], at: usize, b: &[u8]) -> usize
    requires { (4 ≤ length b.now) × (length b.now < 65536) }
    ensures { Emits out.old at (flat 1 (head_members b.now)) out.new result }
{
    let len = put_number(out, at, 1, BISPDU_LEN, u16_of(b[1], b[2]) as u32);
    let typed = put_text_number(out, len, 1, TYPE, idrp_pdu_type_name(b[3]));
    let numbers = put_numbers(out, typed, b);
    let credit = put_credit(out, numbers, b);
    put_behind(out, credit, b)
}

fn put_members(out: &mut [u64], at: usize, b: &[u8]) -> usize
    requires { length b.now < 65536 }
    ensures { Emits out.old at (flat 1 (members_of b.now)) out.new result }
{
    let protocol = put_text_number(out, at, 1, PROTOCOL, IDRP);
    let sized = put_number(out, protocol, 1, PAYLOAD_LEN, b.len() as u32);
    if b.len() < 4 {
        return sized;
    }
    put_head(out, sized, b)
}

pub fn put_record(out: &mut [u64], at: usize, b: &[u8]) -> usize
    requires { length b.now < 65536 }
    ensures { Emits out.old at (flat 0 (record_of (members_of b.now))) out.new result }
{
    let opened = open_object(out, at, 0, 0);
    let shown = put_members(out, opened, b);
    close_group(out, shown, 0)
}
