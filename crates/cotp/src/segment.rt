// A DT TPDU as a piece of a unit.
ghost use Rattle.std.specs.Prelude.{◌≡◌, ◌+◌, min, length, drop};
ghost use Rattle.cotp.specs.Segment.{segment_of, user_from};

use crate::tpdu::{by_format, seq};
use octets::read::{u16_of, wide};

// The end mark is 1 or 0; the user data begin at place user.
#[derive(Clone, Copy)]
pub struct Segment {
    pub dst: u16,
    pub eot: u8,
    pub number: u32,
    pub user: usize,
}

// The fixed part is bounded by the octets, and not by LI.
#[tactic(auto, unfolding(crate::specs::Segment::segment_of))]
pub fn cotp_dt_segment(b: &[u8]) -> Option<Segment>
    ensures { result ≡ segment_of b.now }
{
    let li = wide(*b.first()?);
    if b.len() < li + 1 || li == 0 || li == 255 || b[1] / 16 != 15 {
        return None;
    }
    let extended = li % 2 == 1;
    if b.len() < by_format(extended, 8) {
        return None;
    }
    Some(Segment {
        dst: u16_of(b[2], b[3]),
        eot: b[4] / 128,
        number: seq(b, extended),
        user: li + 1,
    })
}

// The user data as a part of the octets, empty where there is no segment.
pub fn cotp_user<'a>(b: &'a [u8], s: Option<Segment>) -> &'a [u8]
    ensures result_value { result.now ≡ drop (user_from b.now s) b.now }
    ensures ref_ptr_value { (result.ref_ptr.0 ≡ b.entry.ref_ptr.0) × (result.ref_ptr.1 ≡ min (user_from b.now s) (length b.now) + b.entry.ref_ptr.1) }
{
    let from = s.map_or(b.len(), |s| s.user.min(b.len()));
    &b[from..]
}
