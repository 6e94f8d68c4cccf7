// An X.25 packet's record as cells.
ghost use Rattle.std.specs.Prelude.{◌+◌, ◌<◌, ◌≤◌, length};
ghost use Rattle.octets.specs.Emit.{Emits};
ghost use Rattle.names.specs.Numbers.{k_lcn, k_kind, k_ps, k_pr, k_more, k_cause, k_cause_text, k_diagnostic, k_diagnostic_text};
ghost use Rattle.cells.specs.Items.{none, leaf, number, flag, text, record_of, flat, ◌⊕◌};
ghost use Rattle.fields.specs.Member.{opt_text};
ghost use Rattle.x25.specs.Packet.{opt_number, opt_sndcf, fac_member, members_of};

use crate::facility::put_facilities;
use crate::packet::Packet;
use crate::sndcf::put_sndcf;
use cells::emit::{close_group, open_object, put_flag, put_number, put_text_number};
use fields::member::put_text_if;
use names::key::{CAUSE, CAUSE_TEXT, DIAGNOSTIC, DIAGNOSTIC_TEXT, KIND, LCN, MORE, PR, PS};

fn put_octet(out: &mut [u64], at: usize, field: u8, o: Option<u8>) -> usize
    ensures { Emits out.old at (flat 1 (opt_number field o)) out.new result }
{
    match o {
        None => at,
        Some(v) => put_number(out, at, 1, field, v as u32),
    }
}

fn put_negotiated(out: &mut [u64], at: usize, o: Option<u8>, version: u8) -> usize
    ensures { Emits out.old at (flat 1 (opt_sndcf o version)) out.new result }
{
    match o {
        None => at,
        Some(v) => put_sndcf(out, at, v, version),
    }
}

// The members that data packets have.
fn put_head(x: &Packet, out: &mut [u64], at: usize) -> usize
    ensures { Emits out.old at (flat 1 (leaf k_lcn (number x.now.lcn) none ⊕ (leaf k_kind (text x.now.kind) none ⊕ (opt_number k_ps x.now.ps ⊕ (opt_number k_pr x.now.pr ⊕ leaf k_more (flag x.now.more) none))))) out.new result }
{
    let lcn = put_number(out, at, 1, LCN, x.lcn as u32);
    let kind = put_text_number(out, lcn, 1, KIND, x.kind);
    let ps = put_octet(out, kind, PS, x.ps);
    let pr = put_octet(out, ps, PR, x.pr);
    put_flag(out, pr, 1, MORE, x.more)
}

fn put_causes(x: &Packet, out: &mut [u64], at: usize) -> usize
    ensures { Emits out.old at (flat 1 (opt_number k_cause x.now.cause ⊕ (opt_text k_cause_text x.now.causetext ⊕ (opt_number k_diagnostic x.now.diagnostic ⊕ opt_text k_diagnostic_text x.now.diagtext)))) out.new result }
{
    let caused = put_octet(out, at, CAUSE, x.cause);
    let named = put_text_if(out, caused, 1, CAUSE_TEXT, x.causetext);
    let told = put_octet(out, named, DIAGNOSTIC, x.diagnostic);
    put_text_if(out, told, 1, DIAGNOSTIC_TEXT, x.diagtext)
}

fn put_calls(x: &Packet, b: &[u8], out: &mut [u64], at: usize) -> usize
    requires { (length b.now < 65536) × (x.now.facat + x.now.faclen ≤ length b.now) }
    ensures { Emits out.old at (flat 1 (fac_member b.now x.now ⊕ opt_sndcf x.now.sndcf x.now.version)) out.new result }
{
    let from = x.facat;
    let listed = put_facilities(out, at, &b[from..from + x.faclen], from);
    put_negotiated(out, listed, x.sndcf, x.version)
}

// The same of a packet that is lent.
pub fn put_packet(x: &Packet, b: &[u8], out: &mut [u64], at: usize) -> usize
    requires { (length b.now < 65536) × (x.now.facat + x.now.faclen ≤ length b.now) }
    ensures { Emits out.old at (flat 0 (record_of (members_of b.now x.now))) out.new result }
{
    let opened = open_object(out, at, 0, 0);
    let head = put_head(x, out, opened);
    let causes = put_causes(x, out, head);
    let calls = put_calls(x, b, out, causes);
    close_group(out, calls, 0)
}

pub fn put_record(x: Packet, b: &[u8], out: &mut [u64], at: usize) -> usize
    requires { (length b.now < 65536) × (x.facat + x.faclen ≤ length b.now) }
    ensures { Emits out.old at (flat 0 (record_of (members_of b.now x))) out.new result }
{
    put_packet(&x, b, out, at)
}
