// A record, put into a lent output.
ghost use Rattle.std.specs.Prelude.{◌≡◌, ◌+◌, ◌*◌, ◌≤◌, ℕ, length};
ghost use Rattle.octets.specs.Emit.{Emits};
ghost use Rattle.cells.specs.Items.{Items, record_of, flat};
ghost use Rattle.cells.specs.Answer.{Parsed};

use crate::answer::{Answer, Refusal};

// What has a record: its members, and the octets that it is the record of.
pub trait Record {
    ghost size: { Self → ℕ };

    ghost members: { Self → Items };

    fn len(&self) -> usize
        ensures { result ≡ size self.now };

    fn put(&self, out: &mut [u64], at: usize) -> usize
        ensures { Emits out.old at (flat 0 (record_of (members self.now))) out.new result };
}

// Where so many cells are lent that every record fits one pass is enough; else the first pass counts, and writes nothing.
pub fn put_record<R: Record>(r: &R, out: &mut [u64]) -> Answer
    requires { (R.size r.now ≤ 65535) × (length (flat 0 (record_of (R.members r.now))) ≤ 4 * R.size r.now + 64) }
    ensures { Parsed (R.size r.now) (flat 0 (record_of (R.members r.now))) out.old result out.new }
{
    if 4 * r.len() + 64 <= out.len() {
        return Ok(r.put(out, 0));
    }
    let count = r.put(&mut out[..0], 0);
    if out.len() < count {
        return Err(Refusal::Short);
    }
    r.put(out, 0);
    Ok(count)
}
