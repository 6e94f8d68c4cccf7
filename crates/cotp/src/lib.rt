// COTP TPDUs as item records.
#![tactic(auto)]

ghost use Rattle.std.specs.Prelude.{◌≡◌, ◌<◌, Some, length};
ghost use Rattle.cells.specs.Answer.{Parsed};
ghost use Rattle.cotp.specs.Tpdu.{head_of, members_of, cotp_cells};

use crate::tpdu::{Head, read};
use cells::answer::{Answer, Refusal};
use cells::record::{Record, put_record};

pub mod params;
pub mod record;
pub mod segment;
pub mod tpdu;

#[derive(Clone, Copy)]
struct Pdu<'a> {
    octets: &'a [u8],
    head: Head,
    ghost short: { length octets.now < 65536 },
    ghost read: { head_of octets.now ≡ Some head },
}

impl Record for Pdu<'_> {
    ghost size = { λ t. length t.octets.now };

    ghost members = { λ t. members_of 0 t.octets.now t.head };

    fn len(&self) -> usize {
        self.octets.len()
    }

    fn put(&self, out: &mut [u64], at: usize) -> usize {
        record::put_record(out, at, self.octets, self.head)
    }
}

pub fn parse_cotp(b: &[u8], out: &mut [u64]) -> Answer
    ensures { Parsed (length b.now) (cotp_cells b.now) out.old result out.new }
{
    if 65535 < b.len() {
        return Err(Refusal::TooLong);
    }
    let Some(head) = read(b) else {
        return Err(Refusal::Unreadable);
    };
    put_record(&Pdu { octets: b, head }, out)
}
