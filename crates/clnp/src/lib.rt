// CLNP PDUs as item records.
#![tactic(auto)]

ghost use Rattle.std.specs.Prelude.{◌≡◌, ◌&&◌, ◌<◌, true, length};
ghost use Rattle.cells.specs.Answer.{Parsed};
ghost use Rattle.clnp.specs.Segment.{headed as is_headed, addresses_of};
ghost use Rattle.clnp.specs.Pdu.{has_addresses, members_of, clnp_cells};

use crate::segment::{clnp_addresses, headed};
use cells::answer::{Answer, Refusal};
use cells::record::{Record, put_record};

pub mod label;
pub mod option;
pub mod record;
pub mod segment;
pub mod tag;

#[derive(Clone, Copy)]
struct Pdu<'a> {
    octets: &'a [u8],
    ghost short: { length octets.now < 65536 },
    ghost readable: { (is_headed octets.now && has_addresses (addresses_of octets.now)) ≡ true },
}

impl Record for Pdu<'_> {
    ghost size = { λ p. length p.octets.now };

    ghost members = { λ p. members_of p.octets.now };

    fn len(&self) -> usize {
        self.octets.len()
    }

    fn put(&self, out: &mut [u64], at: usize) -> usize {
        record::put_record(out, at, self.octets)
    }
}

fn readable(b: &[u8]) -> bool
    ensures { result ≡ (is_headed b.now && has_addresses (addresses_of b.now)) }
{
    headed(b) && clnp_addresses(b).is_some()
}

pub fn parse_clnp(b: &[u8], out: &mut [u64]) -> Answer
    ensures { Parsed (length b.now) (clnp_cells b.now) out.old result out.new }
{
    if 65535 < b.len() {
        return Err(Refusal::TooLong);
    }
    if !readable(b) {
        return Err(Refusal::Unreadable);
    }
    put_record(&Pdu { octets: b }, out)
}
