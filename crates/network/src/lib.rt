// What an X.25 unit carries, as an item record: CLNP, ES-IS, IDRP, or the label of a compressed PDU.
#![tactic(auto)]

ghost use Rattle.std.specs.Prelude.{◌≡◌, ◌≤◌, ◌<◌, length};
ghost use Rattle.octets.specs.Emit.{Emits};
ghost use Rattle.cells.specs.Answer.{Parsed};
ghost use Rattle.network.specs.Network.{compressed_cells, network_cells};

use cells::answer::{Answer, Refusal};
use cells::emit::{close_group, open_object, put_number, put_octet_leaf, put_text_number};
use clnp::parse_clnp;
use esis::parse_esis;
use idrp::parse_idrp;
use names::key::{FIRST, PAYLOAD_LEN, PROTOCOL};
use names::text::CLNP_COMPRESSED;

fn put_compressed(out: &mut [u64], b: &[u8]) -> usize
    requires { (0 < length b.now) × (length b.now ≤ 65535) }
    ensures { Emits out.old 0 (compressed_cells b.now) out.new result }
{
    let opened = open_object(out, 0, 0, 0);
    let labelled = put_text_number(out, opened, 1, PROTOCOL, CLNP_COMPRESSED);
    let first = put_octet_leaf(out, labelled, 1, FIRST, b[0]);
    let measured = put_number(out, first, 1, PAYLOAD_LEN, b.len() as u32);
    close_group(out, measured, 0)
}

// A record of five cells.
fn parse_compressed(b: &[u8], out: &mut [u64]) -> Answer
    requires { (0 < length b.now) × (length b.now ≤ 65535) }
    ensures { Parsed (length b.now) (compressed_cells b.now) out.old result out.new }
{
    if out.len() < 5 {
        return Err(Refusal::Short);
    }
    let size = put_compressed(out, b);
    Ok(size)
}

pub fn parse_network(b: &[u8], out: &mut [u64]) -> Answer
    ensures { Parsed (length b.now) (network_cells b.now) out.old result out.new }
{
    if 65535 < b.len() {
        return Err(Refusal::TooLong);
    }
    if b.len() == 0 {
        return Err(Refusal::Unreadable);
    }
    match b[0] {
        0x81 => parse_clnp(b, out),
        0x82 => parse_esis(b, out),
        0x83 => parse_idrp(b, out),
        _ => parse_compressed(b, out),
    }
}
