// The body of an OPEN.
ghost use Rattle.std.specs.Prelude.{◌+◌, ◌<◌, ◌≤◌, length};
ghost use Rattle.octets.specs.Emit.{Emits};
ghost use Rattle.cells.specs.Items.{flat};
ghost use Rattle.idrp.specs.Pdu.{open_members};

use cells::emit::{put_hex_part, put_number};
use names::key::{HOLD_TIME_S, MAX_PDU_SIZE, SRC_RDI, VERSION};
use octets::read::{u16_of, wide};

// The members of a body that stands at place base of the input: the source RDI where the octets have all of it.
pub fn put_open(out: &mut [u64], at: usize, base: usize, s: &[u8]) -> usize
    requires { (6 ≤ length s.now) × (base + length s.now < 65536) }
    ensures { Emits out.old at (flat 2 (open_members base s.now)) out.new result }
{
    let version = put_number(out, at, 2, VERSION, s[0] as u32);
    let hold = put_number(out, version, 2, HOLD_TIME_S, u16_of(s[1], s[2]) as u32);
    let size = put_number(out, hold, 2, MAX_PDU_SIZE, u16_of(s[3], s[4]) as u32);
    let n = wide(s[5]);
    if 6 + n <= s.len() {
        return put_hex_part(out, size, 2, SRC_RDI, base + 6, n);
    }
    size
}
