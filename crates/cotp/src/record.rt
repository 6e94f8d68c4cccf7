// A TPDU's record as cells.
ghost use Rattle.std.specs.Prelude.{◌≡◌, [], Some, ◌+◌, ◌%◌, ◌<◌, ◌≤◌, length, get_or};
ghost use Rattle.octets.specs.Emit.{Emits};
ghost use Rattle.octets.specs.Text.{pick};
ghost use Rattle.names.specs.Numbers.{k_reason, k_reason_text, k_reject_cause, k_reject_cause_text, k_roa, k_params};
ghost use Rattle.codes.specs.Codes.{text_in, disconnect_reasons, reject_causes};
ghost use Rattle.cells.specs.Items.{none, leaf, number, flag, record_of, in_list, flat, ◌⊕◌};
ghost use Rattle.fields.specs.Member.{opt_text};
ghost use Rattle.cotp.specs.Params.{param_items};
ghost use Rattle.cotp.specs.Tpdu.{fixed_len, head_of, src_ref, connect_members, seq_member, credit_members, data_members, fixed_members, param_part, has_user, partial as is_partial, user_members, members_of};

use crate::params::put_params;
use crate::tpdu::{Head, Kind, seq};
use cells::emit::{close_group, open_object, put_flag, put_number, put_text_number};
use codes::{cotp_dr_reason, cotp_er_reject_cause};
use fields::member::{put_text_if, put_yes_if};
use fields::part::Part;
use names::key::{
    CLASS, CREDIT, DST_REF, EOT, EXTENDED, OPTIONS, REASON, REASON_TEXT, REJECT_CAUSE,
    REJECT_CAUSE_TEXT, ROA, SRC_REF, TPDU, TPDU_SEQ, TSDU_SEGMENT, USER_DATA_LEN,
};
use octets::read::u16_of;

fn put_src(out: &mut [u64], at: usize, depth: u8, b: &[u8]) -> usize
    requires { (depth < 16) × (6 ≤ length b.now) }
    ensures { Emits out.old at (flat depth (src_ref b.now)) out.new result }
{
    put_number(out, at, depth, SRC_REF, u16_of(b[4], b[5]) as u32)
}

fn put_seq(out: &mut [u64], at: usize, depth: u8, b: &[u8], extended: bool) -> usize
    requires { (depth < 16) × (pick extended 8 5 ≤ length b.now) }
    ensures { Emits out.old at (flat depth (seq_member b.now extended)) out.new result }
{
    put_number(out, at, depth, TPDU_SEQ, seq(b, extended))
}

// CR and CC.
fn put_connect(out: &mut [u64], at: usize, depth: u8, b: &[u8]) -> usize
    requires { (depth < 16) × (7 ≤ length b.now) }
    ensures { Emits out.old at (flat depth (connect_members b.now)) out.new result }
{
    let src = put_src(out, at, depth, b);
    let class = put_number(out, src, depth, CLASS, (b[6] / 16) as u32);
    put_number(out, class, depth, OPTIONS, (b[6] % 16) as u32)
}

// DR.
fn put_request(out: &mut [u64], at: usize, depth: u8, b: &[u8]) -> usize
    requires { (depth < 16) × (7 ≤ length b.now) }
    ensures { Emits out.old at (flat depth (src_ref b.now ⊕ (leaf k_reason (number (get_or b.now 6 0)) none ⊕ opt_text k_reason_text (text_in disconnect_reasons [] (get_or b.now 6 0))))) out.new result }
{
    let src = put_src(out, at, depth, b);
    let reason = put_number(out, src, depth, REASON, b[6] as u32);
    put_text_if(out, reason, depth, REASON_TEXT, cotp_dr_reason(b[6]))
}

// ER.
fn put_error(out: &mut [u64], at: usize, depth: u8, b: &[u8]) -> usize
    requires { (depth < 16) × (5 ≤ length b.now) }
    ensures { Emits out.old at (flat depth (leaf k_reject_cause (number (get_or b.now 4 0)) none ⊕ opt_text k_reject_cause_text (text_in reject_causes [] (get_or b.now 4 0)))) out.new result }
{
    let cause = put_number(out, at, depth, REJECT_CAUSE, b[4] as u32);
    put_text_if(
        out,
        cause,
        depth,
        REJECT_CAUSE_TEXT,
        cotp_er_reject_cause(b[4]),
    )
}

// DT and ED.
fn put_data(out: &mut [u64], at: usize, depth: u8, b: &[u8], extended: bool) -> usize
    requires { (depth < 16) × (pick extended 8 5 ≤ length b.now) }
    ensures { Emits out.old at (flat depth (data_members b.now extended)) out.new result }
{
    let eot = put_flag(out, at, depth, EOT, b[4] / 128);
    put_seq(out, eot, depth, b, extended)
}

// DT asks for an acknowledgement in the last bit of its code octet.
fn put_asked_data(out: &mut [u64], at: usize, depth: u8, b: &[u8], extended: bool) -> usize
    requires { (depth < 16) × (pick extended 8 5 ≤ length b.now) }
    ensures { Emits out.old at (flat depth (leaf k_roa (flag (get_or b.now 1 0 % 2)) none ⊕ data_members b.now extended)) out.new result }
{
    let roa = put_flag(out, at, depth, ROA, b[1] % 2);
    put_data(out, roa, depth, b, extended)
}

// AK and RJ: the credit behind a number of 31 bits, or before one of 7 bits.
fn put_credit(out: &mut [u64], at: usize, depth: u8, b: &[u8], extended: bool) -> usize
    requires { (depth < 16) × (pick extended 10 5 ≤ length b.now) }
    ensures { Emits out.old at (flat depth (credit_members b.now extended)) out.new result }
{
    if extended {
        let number = put_seq(out, at, depth, b, true);
        return put_number(out, number, depth, CREDIT, u16_of(b[8], b[9]) as u32);
    }
    let credit = put_number(out, at, depth, CREDIT, (b[1] % 16) as u32);
    put_seq(out, credit, depth, b, false)
}

// A TPDU that was read, in its place of the input: the octets have its fixed part.
#[derive(Clone, Copy)]
struct Read<'a> {
    part: Part<'a>,
    head: Head,
    ghost low: { head.li < 256 },
    ghost whole: { fixed_len head.kind head.extended ≤ length part.octets.now },
}

// The members of the fixed part.
fn put_fixed(out: &mut [u64], at: usize, depth: u8, t: Read) -> usize
    requires { depth < 16 }
    ensures { Emits out.old at (flat depth (fixed_members t.entry.part.octets.now t.entry.head.kind t.entry.head.extended)) out.new result }
{
    let b = t.part.octets;
    let extended = t.head.extended;
    match t.head.kind {
        Kind::Cr | Kind::Cc => put_connect(out, at, depth, b),
        Kind::Dr => put_request(out, at, depth, b),
        Kind::Dc => put_src(out, at, depth, b),
        Kind::Er => put_error(out, at, depth, b),
        Kind::Dt => put_asked_data(out, at, depth, b, extended),
        Kind::Ed => put_data(out, at, depth, b, extended),
        Kind::Ea => put_seq(out, at, depth, b, extended),
        Kind::Ak | Kind::Rj => put_credit(out, at, depth, b, extended),
    }
}

// The parameters, up to the octet that LI counts to, where the octets have it.
fn put_variable(out: &mut [u64], at: usize, depth: u8, t: Read) -> usize
    requires { depth < 14 }
    ensures { Emits out.old at (flat depth (in_list k_params (param_items (t.entry.part.base + t.entry.head.fixed) (param_part t.entry.part.octets.now t.entry.head)))) out.new result }
{
    let from = t.head.fixed;
    let Some(params) = t.part.octets.get(from..t.head.li + 1) else {
        return at;
    };
    put_params(out, at, depth, t.part.base + from, params)
}

fn has_user(t: Read) -> bool
    ensures { result ≡ has_user t.entry.part.octets.now t.entry.head }
{
    matches!(t.head.kind, Kind::Dt | Kind::Ed) && t.head.li + 1 < t.part.octets.len()
}

// A DT that is not a whole unit.
fn partial(t: Read) -> bool
    ensures { result ≡ is_partial t.entry.part.octets.now t.entry.head }
{
    let b = t.part.octets;
    matches!(t.head.kind, Kind::Dt) && (b[4] / 128 == 0 || seq(b, t.head.extended) != 0)
}

// User data, of DT and ED.
fn put_user(out: &mut [u64], at: usize, depth: u8, t: Read) -> usize
    requires { depth < 16 }
    ensures { Emits out.old at (flat depth (user_members t.entry.part.octets.now t.entry.head)) out.new result }
{
    if !has_user(t) {
        return at;
    }
    let n = t.part.octets.len() - (t.head.li + 1);
    let told = put_number(out, at, depth, USER_DATA_LEN, n as u32);
    put_yes_if(out, told, depth, TSDU_SEGMENT, partial(t))
}

fn put_tpdu(out: &mut [u64], at: usize, depth: u8, t: Read) -> usize
    requires { depth < 14 }
    ensures { Emits out.old at (flat depth (members_of t.entry.part.base t.entry.part.octets.now t.entry.head)) out.new result }
{
    let b = t.part.octets;
    let named = put_text_number(out, at, depth, TPDU, t.head.kind.name());
    let dst = put_number(out, named, depth, DST_REF, u16_of(b[2], b[3]) as u32);
    let fixed = put_fixed(out, dst, depth, t);
    let told = put_yes_if(out, fixed, depth, EXTENDED, t.head.extended);
    let listed = put_variable(out, told, depth, t);
    put_user(out, listed, depth, t)
}

// The members of a TPDU that stands at place base of the input.
pub fn put_members(out: &mut [u64], at: usize, depth: u8, base: usize, b: &[u8], h: Head) -> usize
    requires { (depth < 14) × (base + length b.now < 65536) × (head_of b.now ≡ Some h) }
    ensures { Emits out.old at (flat depth (members_of base b.now h)) out.new result }
{
    let part = Part { base, octets: b };
    put_tpdu(out, at, depth, Read { part, head: h })
}

pub fn put_record(out: &mut [u64], at: usize, b: &[u8], h: Head) -> usize
    requires { (length b.now < 65536) × (head_of b.now ≡ Some h) }
    ensures { Emits out.old at (flat 0 (record_of (members_of 0 b.now h))) out.new result }
{
    let opened = open_object(out, at, 0, 0);
    let shown = put_members(out, opened, 1, 0, b, h);
    close_group(out, shown, 0)
}
