// The compression negotiation of a call.
ghost use Rattle.std.specs.Prelude.{◌≡◌, false, ◌<◌};
ghost use Rattle.octets.specs.Emit.{Emits};
ghost use Rattle.names.specs.Numbers.{k_compression_algos};
ghost use Rattle.cells.specs.Items.{none, group, flat};
ghost use Rattle.x25.specs.Sndcf.{field_at, algorithm, algorithms, version_member, sndcf_member};

use cells::emit::{close_group, open_list, open_object, put_flag, put_number, put_text_number};
use names::key::{COMPRESSION_ALGOS, COMPRESSION_OPTIONS, MAINTENANCE, SNDCF, VERSION};
use names::text::{ACA, DEFLATE, LREF, LREF_CAN};
use octets::read::wide;

// The field of a call request: its compression octet and the place behind it.
#[derive(Clone, Copy, PartialEq, Eq)]
pub struct Field {
    pub octet: u8,
    pub end: usize,
}

// The bound on the place is against a sum that wraps; no address block and no facilities reach so far.
#[tactic(auto, unfolding(crate::specs::Sndcf::field_at))]
pub fn field_at(b: &[u8], p: usize) -> Option<Field>
    requires { p < 65536 }
    ensures { result ≡ field_at b.now p }
{
    if b.len() < p + 2 || b[p] != 0xC1 {
        return None;
    }
    let n = wide(b[p + 1]);
    if n < 4 || b.len() < p + 2 + n || b[p + 2] != 1 {
        return None;
    }
    Some(Field {
        octet: b[p + 5],
        end: p + 2 + n,
    })
}

fn put_algorithm(out: &mut [u64], at: usize, bit: u8, number: u32) -> usize
    ensures { Emits out.old at (flat 3 (algorithm bit number)) out.new result }
{
    if bit == 1 {
        return put_text_number(out, at, 3, 0, number);
    }
    at
}

fn put_algorithms(out: &mut [u64], at: usize, o: u8) -> usize
    ensures { Emits out.old at (flat 2 (group false k_compression_algos (algorithms o) none)) out.new result }
{
    let opened = open_list(out, at, 2, COMPRESSION_ALGOS);
    let aca = put_algorithm(out, opened, o / 64 % 2, ACA);
    let deflate = put_algorithm(out, aca, o / 32 % 2, DEFLATE);
    let lref = put_algorithm(out, deflate, o / 2 % 2, LREF);
    let cancel = put_algorithm(out, lref, o % 2, LREF_CAN);
    close_group(out, cancel, 2)
}

fn put_version(out: &mut [u64], at: usize, version: u8) -> usize
    ensures { Emits out.old at (flat 2 (version_member version)) out.new result }
{
    if version == 0 {
        return at;
    }
    put_number(out, at, 2, VERSION, version as u32)
}

pub fn put_sndcf(out: &mut [u64], at: usize, o: u8, version: u8) -> usize
    ensures { Emits out.old at (flat 1 (sndcf_member o version)) out.new result }
{
    let opened = open_object(out, at, 1, SNDCF);
    let options = put_number(out, opened, 2, COMPRESSION_OPTIONS, o as u32);
    let algos = put_algorithms(out, options, o);
    let maintenance = put_flag(out, algos, 2, MAINTENANCE, o / 16 % 2);
    let last = put_version(out, maintenance, version);
    close_group(out, last, 1)
}
