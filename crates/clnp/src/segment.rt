// The header of a CLNP PDU, as far as a piece of a unit needs it.
ghost use Rattle.std.specs.Prelude.{◌≡◌, ◌&&◌, ◌+◌, ◌<◌, ◌≤◌, Err, IfErr, IfOk, IfSome, MatchResult, length, drop};
ghost use Rattle.cells.specs.Answer.{number_of};
ghost use Rattle.clnp.specs.Segment.{headed as is_headed, sp, behind as behind_of, segment_of, address_ok, addresses_of, is_piece, tpdu_of, tpdu_answer, tpdu_place};

use cells::answer::Refusal;
use octets::read::{u16_of, wide};

#[derive(Clone, Copy)]
pub struct Segment {
    pub id: u16,
    pub offset: u16,
    pub total: u16,
    pub more: u8,
    pub header: usize,
}

#[derive(Clone, Copy)]
pub struct Addresses {
    pub dst: usize,
    pub dstlen: usize,
    pub src: usize,
    pub srclen: usize,
}

// A full header, which the octets have.
pub fn headed(b: &[u8]) -> bool
    ensures { result ≡ is_headed b.now }
{
    9 <= b.len() && b[0] == 0x81 && 9 <= b[1] && wide(b[1]) <= b.len()
}

// The place behind an address whose length octet stands at p. The bound on p is against a sum that wraps.
pub fn behind(b: &[u8], p: usize) -> usize
    requires { (p < length b.now) × (p < 65536) }
    ensures { (result ≡ behind_of b.now p) × (result < p + 257) }
{
    p + 1 + wide(b[p])
}

// The segmentation part is bounded by the octets, and not by the header.
#[tactic(auto, unfolding(crate::specs::Segment::segment_of))]
pub fn clnp_segment(b: &[u8]) -> Option<Segment>
    ensures { result ≡ segment_of b.now }
{
    if !headed(b) || b[4] < 128 || b.len() <= 9 {
        return None;
    }
    let dst = behind(b, 9);
    if b.len() <= dst {
        return None;
    }
    let p = behind(b, dst);
    if b.len() < p + 6 {
        return None;
    }
    Some(Segment {
        id: u16_of(b[p], b[p + 1]),
        offset: u16_of(b[p + 2], b[p + 3]),
        total: u16_of(b[p + 4], b[p + 5]),
        more: b[4] / 64 % 2,
        header: wide(b[1]),
    })
}

// At most 20 octets, which are there.
fn address_ok(b: &[u8], p: usize) -> bool
    requires { p < 65536 }
    ensures { result ≡ address_ok b.now p }
{
    p < b.len() && behind(b, p) <= b.len() && b[p] <= 20
}

#[tactic(auto, unfolding(crate::specs::Segment::addresses_of))]
pub fn clnp_addresses(b: &[u8]) -> Option<Addresses>
    ensures { result ≡ addresses_of b.now }
{
    if !address_ok(b, 9) {
        return None;
    }
    let p = behind(b, 9);
    if !address_ok(b, p) {
        return None;
    }
    Some(Addresses {
        dst: 10,
        dstlen: wide(b[9]),
        src: p + 1,
        srclen: wide(b[p]),
    })
}

fn is_piece(s: Option<Segment>) -> bool
    ensures { result ≡ is_piece s }
{
    s.is_some_and(|s| s.more == 1 || s.offset != 0)
}

// The more bit is heeded only where SP is set.
fn in_pieces(b: &[u8]) -> bool
    requires { 4 < length b.now }
    ensures { result ≡ (sp b.now && is_piece (segment_of b.now)) }
{
    128 <= b[4] && is_piece(clnp_segment(b))
}

#[tactic(auto, unfolding(crate::specs::Segment::tpdu_of))]
fn tpdu_of(b: &[u8]) -> Option<usize>
    ensures value { result ≡ tpdu_of b.now }
    ensures within { IfSome result (λ n. n ≤ length b.now) }
{
    if !headed(b) || b[4] % 32 != 0x1C || in_pieces(b) {
        return None;
    }
    Some(wide(b[1]))
}

// The data part of a whole DT PDU.
pub fn clnp_cotp_tpdu<'a>(b: &'a [u8]) -> Result<&'a [u8], Refusal>
    ensures answer { MatchResult result (λ t. (tpdu_answer b.now (tpdu_of b.now) ≡ 0) × (t.now ≡ drop (tpdu_place b.now (tpdu_of b.now)) b.now)) (λ r. tpdu_answer b.now (tpdu_of b.now) ≡ number_of (Err r)) }
    ensures refused { IfErr result (λ r. tpdu_place b.now (tpdu_of b.now) ≡ length b.now) }
    ensures ref_ptr_value { IfOk result (λ t. (t.ref_ptr.0 ≡ b.entry.ref_ptr.0) × (t.ref_ptr.1 ≡ tpdu_place b.now (tpdu_of b.now) + b.entry.ref_ptr.1)) }
{
    if 65535 < b.len() {
        return Err(Refusal::TooLong);
    }
    let Some(from) = tpdu_of(b) else {
        return Err(Refusal::Unreadable);
    };
    Ok(&b[from..])
}
