// X.25 packets as item records.
#![tactic(auto)]

ghost use Rattle.std.specs.Prelude.{◌≡◌, ◌+◌, ◌≤◌, ◌<◌, ℕ, List, Some, Err, MatchResult, length};
ghost use Rattle.cells.specs.Answer.{Parsed};
ghost use Rattle.x25.specs.Packet.{read_of, members_of, x25_cells, payload_by, payload_for, x25_answer};
ghost use Rattle.x25.specs.Parse.{ParsedX25};

use crate::packet::{Packet, read};
use cells::answer::{Answer, Refusal};
use cells::record::{Record, put_record};

pub mod facility;
pub mod packet;
pub mod record;
pub mod sndcf;

// A packet that was read, and its octets.
#[derive(Clone, Copy)]
struct Known<'a> {
    packet: &'a Packet,
    octets: &'a [u8],
    ghost short: { length octets.now < 65536 },
    ghost within: { packet.now.facat + packet.now.faclen ≤ length octets.now },
}

impl Record for Known<'_> {
    ghost size = { λ x. length x.octets.now };

    ghost members = { λ x. members_of x.octets.now x.packet.now };

    fn len(&self) -> usize {
        self.octets.len()
    }

    fn put(&self, out: &mut [u64], at: usize) -> usize {
        record::put_packet(self.packet, self.octets, out, at)
    }
}

// The packet that the octets hold, or the answer where they hold none.
fn answer_on(b: &[u8]) -> Result<Packet, Refusal>
    ensures { MatchResult result (λ x. (read_of b.now ≡ Some x) × (length b.now ≤ 65535)) (λ r. (old : List ℕ) → Parsed (length b.now) (x25_cells b.now) old (Err r) old) }
{
    if 65535 < b.len() {
        return Err(Refusal::TooLong);
    }
    let Some(x) = read(b) else {
        return Err(Refusal::Unreadable);
    };
    Ok(x)
}

// The answer on a packet that was read, and its cells.
fn put_known(x: &Packet, b: &[u8], out: &mut [u64]) -> Answer
    requires { (read_of b.now ≡ Some x.now) × (length b.now ≤ 65535) }
    ensures { Parsed (length b.now) (x25_cells b.now) out.old result out.new }
{
    put_record(
        &Known {
            packet: x,
            octets: b,
        },
        out,
    )
}

// Where the payload of a packet of n octets starts: on refusal at the end.
fn payload_at(x: &Packet, n: usize, a: Answer) -> usize
    ensures { result ≡ payload_by n a (Some x.now) }
{
    match a {
        Ok(_) => x.payload,
        Err(_) => n,
    }
}

// The record alone.
pub fn x25_record(b: &[u8], out: &mut [u64]) -> Answer
    ensures { Parsed (length b.now) (x25_cells b.now) out.old result out.new }
{
    let x = answer_on(b)?;
    put_known(&x, b, out)
}

// The answer, and the payload as a part of the octets: empty, at their end, on refusal.
pub fn parse_x25<'a>(b: &'a [u8], out: &mut [u64]) -> (Answer, &'a [u8])
    ensures parsed { ParsedX25 b.now out.old result.0 out.new result.1.now }
    ensures place { (result.1.ref_ptr.0 ≡ b.entry.ref_ptr.0) × (result.1.ref_ptr.1 ≡ payload_for b.now (x25_answer b.now (length out.old)) + b.entry.ref_ptr.1) }
{
    match answer_on(b) {
        Ok(x) => {
            let a = put_known(&x, b, out);
            let from = payload_at(&x, b.len(), a);
            (a, &b[from..])
        }
        Err(r) => (Err(r), &b[b.len()..]),
    }
}
