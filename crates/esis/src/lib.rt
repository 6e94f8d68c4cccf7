// ES-IS PDUs as item records.
#![tactic(auto)]

ghost use Rattle.std.specs.Prelude.{◌<◌, length};
ghost use Rattle.cells.specs.Answer.{Parsed};
ghost use Rattle.esis.specs.Pdu.{members_of, esis_cells};

use cells::answer::{Answer, Refusal};
use cells::record::{Record, put_record};

pub mod address;
pub mod option;
pub mod record;

#[derive(Clone, Copy)]
struct Pdu<'a> {
    octets: &'a [u8],
    ghost short: { length octets.now < 65536 },
}

impl Record for Pdu<'_> {
    ghost size = { λ p. length p.octets.now };

    ghost members = { λ p. members_of p.octets.now };

    fn len(&self) -> usize {
        self.octets.len()
    }

    fn put(&self, out: &mut [u64], at: usize) -> usize {
        record::put_record(out, at, self.octets)
    }
}

pub fn parse_esis(b: &[u8], out: &mut [u64]) -> Answer
    ensures { Parsed (length b.now) (esis_cells b.now) out.old result out.new }
{
    if 65535 < b.len() {
        return Err(Refusal::TooLong);
    }
    put_record(&Pdu { octets: b }, out)
}
