// The C boundary: numbers and slices only. Numbers that come with an answer are written into said, as far as it goes.
#![tactic(auto)]

ghost use Rattle.std.specs.Prelude.{◌≡◌, ◌∷◌, [], length};
ghost use Rattle.octets.specs.Emit.{put};
ghost use Rattle.cells.specs.Answer.{number_of, count_of, output_of};
ghost use Rattle.cotp.specs.Tpdu.{cotp_cells};
ghost use Rattle.cotp.specs.Segment.{segment_of};
ghost use Rattle.print.specs.Print.{printed};
ghost use Rattle.x25.specs.Packet.{x25_cells, x25_answer, payload_for};
ghost use Rattle.clnp.specs.Pdu.{clnp_cells, has_addresses};
ghost use Rattle.clnp.specs.Segment.{segment_of as clnpSegmentOf, addresses_of};
ghost use Rattle.clnp.specs.Segment.{tpdu_of, tpdu_answer, tpdu_place};
ghost use Rattle.network.specs.Network.{network_cells};
ghost use Rattle.exports.specs.Told.{Told, is_piece, piece_numbers, is_segment, segment_numbers, address_numbers};

use cells::answer::{Answer, count as count_of, number};
use clnp::segment::{clnp_addresses, clnp_cotp_tpdu, clnp_segment};
use cotp::segment::cotp_dt_segment;
use octets::emit::put_all;

// Numbers from the front on, as far as said goes.
fn say(said: &mut [u64], numbers: &[u64])
    ensures { said.new ≡ put said.old 0 numbers.now }
{
    put_all(said, 0, numbers);
}

// The answer; the count of cells and the payload's place are said.
#[unsafe(no_mangle)]
pub extern "C" fn atn_parse_x25(b: &[u8], out: &mut [u64], said: &mut [u64]) -> u64
    ensures value { result ≡ number_of (x25_answer b.now (length out.old)) }
    ensures out_after { out.new ≡ output_of (x25_answer b.now (length out.old)) (x25_cells b.now) out.old }
    ensures said_after { said.new ≡ put said.old 0 (count_of (x25_answer b.now (length out.old)) ∷ payload_for b.now (x25_answer b.now (length out.old)) ∷ []) }
{
    let (a, part) = x25::parse_x25(b, out);
    let place = b.len() - part.len();
    say(said, &[count_of(a) as u64, place as u64]);
    number(a) as u64
}

// The number of an answer; its count is said.
fn tell(a: Answer, said: &mut [u64]) -> u64
    ensures value { result ≡ number_of a }
    ensures said_after { said.new ≡ put said.old 0 (count_of a ∷ []) }
{
    say(said, &[count_of(a) as u64]);
    number(a) as u64
}

// The answer; the count of cells is said.
#[unsafe(no_mangle)]
#[tactic(auto, using(crate::proofs::Said::told))]
pub extern "C" fn atn_parse_cotp(b: &[u8], out: &mut [u64], said: &mut [u64]) -> u64
    ensures { Told (length b.now) (cotp_cells b.now) out.old out.new result said.old said.new }
{
    let a = cotp::parse_cotp(b, out);
    tell(a, said)
}

// The answer; the length of the text is said.
#[unsafe(no_mangle)]
#[tactic(auto, using(crate::proofs::Said::told))]
pub extern "C" fn atn_print(cells: &[u64], input: &[u8], out: &mut [u8], said: &mut [u64]) -> u64
    ensures { Told (length input.now) (printed cells.now input.now) out.old out.new result said.old said.new }
{
    let a = print::print(cells, input, out);
    tell(a, said)
}

// Whether the octets are a piece of a unit; its reference, end mark, number and the place of its user data are said.
#[unsafe(no_mangle)]
pub extern "C" fn atn_cotp_dt_segment(b: &[u8], said: &mut [u64]) -> bool
    ensures value { result ≡ is_piece (segment_of b.now) }
    ensures said_after { said.new ≡ put said.old 0 (piece_numbers (segment_of b.now)) }
{
    let Some(s) = cotp_dt_segment(b) else {
        return false;
    };
    say(
        said,
        &[s.dst as u64, s.eot as u64, s.number as u64, s.user as u64],
    );
    true
}

// The answer; the count of cells is said.
#[unsafe(no_mangle)]
#[tactic(auto, using(crate::proofs::Said::told))]
pub extern "C" fn atn_parse_clnp(b: &[u8], out: &mut [u64], said: &mut [u64]) -> u64
    ensures { Told (length b.now) (clnp_cells b.now) out.old out.new result said.old said.new }
{
    let a = clnp::parse_clnp(b, out);
    tell(a, said)
}

// The answer; the count of cells is said.
#[unsafe(no_mangle)]
#[tactic(auto, using(crate::proofs::Said::told))]
pub extern "C" fn atn_parse_network(b: &[u8], out: &mut [u64], said: &mut [u64]) -> u64
    ensures { Told (length b.now) (network_cells b.now) out.old out.new result said.old said.new }
{
    let a = network::parse_network(b, out);
    tell(a, said)
}

// Whether the octets have a segmentation part; its id, offset, total length, more bit and the header length are said.
#[unsafe(no_mangle)]
pub extern "C" fn atn_clnp_segment(b: &[u8], said: &mut [u64]) -> bool
    ensures value { result ≡ is_segment (clnpSegmentOf b.now) }
    ensures said_after { said.new ≡ put said.old 0 (segment_numbers (clnpSegmentOf b.now)) }
{
    let Some(s) = clnp_segment(b) else {
        return false;
    };
    say(
        said,
        &[
            s.id as u64,
            s.offset as u64,
            s.total as u64,
            s.more as u64,
            s.header as u64,
        ],
    );
    true
}

// Whether the octets have two addresses; place and length of the destination and of the source are said.
#[unsafe(no_mangle)]
pub extern "C" fn atn_clnp_addresses(b: &[u8], said: &mut [u64]) -> bool
    ensures value { result ≡ has_addresses (addresses_of b.now) }
    ensures said_after { said.new ≡ put said.old 0 (address_numbers (addresses_of b.now)) }
{
    let Some(a) = clnp_addresses(b) else {
        return false;
    };
    say(
        said,
        &[a.dst as u64, a.dstlen as u64, a.src as u64, a.srclen as u64],
    );
    true
}

// The answer; the place of the TPDU is said, which is the end of the octets where there is none.
#[unsafe(no_mangle)]
pub extern "C" fn atn_clnp_cotp_tpdu(b: &[u8], said: &mut [u64]) -> u64
    ensures value { result ≡ tpdu_answer b.now (tpdu_of b.now) }
    ensures said_after { said.new ≡ put said.old 0 (tpdu_place b.now (tpdu_of b.now) ∷ []) }
{
    match clnp_cotp_tpdu(b) {
        Ok(part) => {
            say(said, &[(b.len() - part.len()) as u64]);
            0
        }
        Err(r) => {
            say(said, &[b.len() as u64]);
            number(Err(r)) as u64
        }
    }
}
