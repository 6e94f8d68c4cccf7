// A CLNP PDU's record as cells.
ghost use Rattle.std.specs.Prelude.{◌≡◌, true, ◌&&◌, ◌+◌, ◌%◌, ◌<◌, ◌≤◌, length, get_or};
ghost use Rattle.octets.specs.Emit.{Emits};
ghost use Rattle.octets.specs.Read.{be16};
ghost use Rattle.names.specs.Numbers.{k_protocol, k_type, k_version, k_lifetime500ms, k_seg_len, k_options, t_clnp};
ghost use Rattle.cells.specs.Items.{none, leaf, number, text, record_of, in_list, flat, ◌⊕◌};
ghost use Rattle.cotp.specs.Tpdu.{head_of};
ghost use Rattle.clnp.specs.Segment.{headed as is_headed, seg_at, addresses_of};
ghost use Rattle.clnp.specs.Options.{option_items};
ghost use Rattle.clnp.specs.Pdu.{type_of, has_segment, offset_of, segmented as is_segmented, segment_members, flag_members, options_at, option_part, cotp_member, data_member, address_members, members_of, has_addresses};

use crate::option::put_options;
use crate::segment::{behind, clnp_addresses};
use cells::emit::{close_group, open_object, put_flag, put_hex_part, put_number, put_text_number};
use cotp::record::put_members;
use cotp::tpdu::read;
use fields::member::put_yes_if;
use fields::part::Part;
use names::key::{
    COTP, DST_NSAP, ERROR_REPORT, LIFETIME_500MS, MORE_SEGMENTS, PDU_ID, PROTOCOL, SEG_LEN,
    SEGMENT_OFFSET, SEGMENTED, SRC_NSAP, TOTAL_LEN, TYPE, VERSION,
};
use names::text::{CLNP, DT, ER, ERP, ERQ, QUESTION};
use octets::read::{u16_of, wide};

fn type_name(t: u8) -> u32
    ensures { result ≡ type_of t }
{
    match t {
        0x1C => DT,
        0x1E => ERQ,
        0x1F => ERP,
        0x01 => ER,
        _ => QUESTION,
    }
}

// A PDU with a full header, whose segmentation part begins at place seg, where it has one.
#[derive(Clone, Copy)]
struct Pdu<'a> {
    octets: &'a [u8],
    seg: usize,
    ghost short: { length octets.now < 65536 },
    ghost full: { (8 < length octets.now) × (get_or octets.now 1 0 ≤ length octets.now) },
    ghost behind: { (seg ≡ seg_at octets.now) × (seg ≤ length octets.now) },
}

fn put_octet(out: &mut [u64], at: usize, field: u8, v: u8) -> usize
    ensures { Emits out.old at (flat 1 (leaf field (number v) none)) out.new result }
{
    put_number(out, at, 1, field, v as u32)
}

fn put_two(out: &mut [u64], at: usize, field: u8, a: u8, b: u8) -> usize
    ensures { Emits out.old at (flat 1 (leaf field (number (be16 a b)) none)) out.new result }
{
    put_number(out, at, 1, field, u16_of(a, b) as u32)
}

fn put_head(out: &mut [u64], at: usize, b: &[u8]) -> usize
    requires { 8 < length b.now }
    ensures { Emits out.old at (flat 1 (leaf k_protocol (text t_clnp) none ⊕ (leaf k_type (text (type_of (get_or b.now 4 0 % 32))) none ⊕ (leaf k_version (number (get_or b.now 2 0)) none ⊕ (leaf k_lifetime500ms (number (get_or b.now 3 0)) none ⊕ leaf k_seg_len (number (be16 (get_or b.now 5 0) (get_or b.now 6 0))) none))))) out.new result }
{
    let protocol = put_text_number(out, at, 1, PROTOCOL, CLNP);
    let typed = put_text_number(out, protocol, 1, TYPE, type_name(b[4] % 32));
    let version = put_octet(out, typed, VERSION, b[2]);
    let lifetime = put_octet(out, version, LIFETIME_500MS, b[3]);
    put_two(out, lifetime, SEG_LEN, b[5], b[6])
}

fn put_addresses(out: &mut [u64], at: usize, b: &[u8]) -> usize
    requires { length b.now < 65536 }
    ensures { Emits out.old at (flat 1 (address_members (addresses_of b.now))) out.new result }
{
    let Some(a) = clnp_addresses(b) else {
        return at;
    };
    let first = put_hex_part(out, at, 1, DST_NSAP, a.dst, a.dstlen);
    put_hex_part(out, first, 1, SRC_NSAP, a.src, a.srclen)
}

// The place behind the two addresses.
fn seg_at(b: &[u8]) -> usize
    requires { has_addresses (addresses_of b.now) ≡ true }
    ensures { (result ≡ seg_at b.now) × (result ≤ length b.now) × (result < 65536) }
{
    let dst = behind(b, 9);
    behind(b, dst)
}

fn has_segment(p: Pdu) -> bool
    ensures { result ≡ has_segment p.entry.octets.now }
{
    128 <= p.octets[4] && p.seg + 6 <= p.octets.len()
}

fn offset(p: Pdu) -> u16
    ensures { result ≡ offset_of p.entry.octets.now }
{
    if has_segment(p) {
        u16_of(p.octets[p.seg + 2], p.octets[p.seg + 3])
    } else {
        0
    }
}

// A piece: the more bit is heeded also without SP.
fn segmented(p: Pdu) -> bool
    ensures { result ≡ is_segmented p.entry.octets.now }
{
    p.octets[4] / 64 % 2 == 1 || offset(p) != 0
}

fn put_segment(out: &mut [u64], at: usize, p: Pdu) -> usize
    ensures { Emits out.old at (flat 1 (segment_members p.entry.octets.now)) out.new result }
{
    if !has_segment(p) {
        return at;
    }
    let b = p.octets;
    let id = put_two(out, at, PDU_ID, b[p.seg], b[p.seg + 1]);
    let from = put_number(out, id, 1, SEGMENT_OFFSET, offset(p) as u32);
    let total = put_two(out, from, TOTAL_LEN, b[p.seg + 4], b[p.seg + 5]);
    put_yes_if(out, total, 1, SEGMENTED, segmented(p))
}

fn put_flags(out: &mut [u64], at: usize, p: Pdu) -> usize
    ensures { Emits out.old at (flat 1 (flag_members p.entry.octets.now)) out.new result }
{
    let flags = p.octets[4];
    if flags < 128 {
        return at;
    }
    let report = put_flag(out, at, 1, ERROR_REPORT, flags / 32 % 2);
    let more = put_flag(out, report, 1, MORE_SEGMENTS, flags / 64 % 2);
    put_segment(out, more, p)
}

fn options_at(p: Pdu) -> usize
    ensures { result ≡ options_at p.entry.octets.now }
{
    if 128 <= p.octets[4] { p.seg + 6 } else { p.seg }
}

// Options stand before the end of the header.
fn put_variable(out: &mut [u64], at: usize, p: Pdu) -> usize
    ensures { Emits out.old at (flat 1 (in_list k_options (option_items (options_at p.entry.octets.now) (option_part p.entry.octets.now)))) out.new result }
{
    let from = options_at(p);
    let Some(options) = p.octets.get(from..wide(p.octets[1])) else {
        return at;
    };
    put_options(out, at, from, options)
}

// A TPDU in its place of the input.
fn put_tpdu(out: &mut [u64], at: usize, t: Part) -> usize
    ensures { Emits out.old at (flat 1 (cotp_member t.entry.base t.entry.octets.now (head_of t.entry.octets.now))) out.new result }
{
    let Some(h) = read(t.octets) else {
        return at;
    };
    let opened = open_object(out, at, 1, COTP);
    let shown = put_members(out, opened, 2, t.base, t.octets, h);
    close_group(out, shown, 1)
}

// The data part of a PDU that is no piece.
fn put_data(out: &mut [u64], at: usize, p: Pdu) -> usize
    ensures { Emits out.old at (flat 1 (data_member p.entry.octets.now)) out.new result }
{
    if segmented(p) {
        return at;
    }
    let base = wide(p.octets[1]);
    let octets = &p.octets[base..];
    put_tpdu(out, at, Part { base, octets })
}

fn put_rest(out: &mut [u64], at: usize, p: Pdu) -> usize
    ensures { Emits out.old at (flat 1 (flag_members p.entry.octets.now ⊕ (in_list k_options (option_items (options_at p.entry.octets.now) (option_part p.entry.octets.now)) ⊕ data_member p.entry.octets.now))) out.new result }
{
    let flags = put_flags(out, at, p);
    let options = put_variable(out, flags, p);
    put_data(out, options, p)
}

pub fn put_record(out: &mut [u64], at: usize, b: &[u8]) -> usize
    requires { (length b.now < 65536) × ((is_headed b.now && has_addresses (addresses_of b.now)) ≡ true) }
    ensures { Emits out.old at (flat 0 (record_of (members_of b.now))) out.new result }
{
    let p = Pdu {
        octets: b,
        seg: seg_at(b),
    };
    let opened = open_object(out, at, 0, 0);
    let head = put_head(out, opened, b);
    let addressed = put_addresses(out, head, b);
    let shown = put_rest(out, addressed, p);
    close_group(out, shown, 0)
}
