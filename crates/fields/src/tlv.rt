// Entries of a type octet, a length octet and a value.
ghost use Rattle.std.specs.Prelude.{◌≡◌, ◌+◌, ◌≤◌, ◌<◌, IfSome, length};
ghost use Rattle.fields.specs.Tlv.{tlv_at};

use cells::entry::Body;
use octets::read::wide;

// What stands at position i of a part: the next entry begins behind it, and within the part.
#[tactic(auto, unfolding(crate::specs::Tlv::tlv_at))]
pub fn tlv_at(s: &[u8], i: usize) -> Option<Body>
    requires { i ≤ length s.now }
    ensures value { result ≡ tlv_at s.now i }
    ensures within { IfSome result (λ b. (i < b.start + b.len) × (b.start + b.len ≤ length s.now)) }
{
    if i + 2 <= s.len() {
        let len = wide(s[i + 1]);
        if i + 2 + len <= s.len() {
            return Some(Body { start: i + 2, len });
        }
    }
    None
}
