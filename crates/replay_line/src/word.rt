// The words of a line.
ghost use Rattle.std.specs.Prelude.{◌≡◌, ◌==◌, position, true, ◌+◌, ◌≤◌, ◌<◌, length, drop, get_or};
ghost use Rattle.octets.specs.Emit.{Emits};
ghost use Rattle.octets.specs.Tests.{all};
ghost use Rattle.replay_line.specs.Word.{up_to, is_digit, value_of, number_in, hex_in, is_hex, is_dash, pairs_of, is_packet, packet_in};

use octets::emit::put_octet;

fn place_of(sep: u8, s: &[u8]) -> Option<usize>
    ensures { result ≡ position (λ x. x == sep) s.now }
{
    s.iter().position(|x| *x == sep)
}

// The place of the first octet from place from on that is sep, or the end.
pub fn find(sep: u8, s: &[u8], from: usize) -> usize
    requires { from ≤ length s.now }
    ensures value { result ≡ from + length (up_to sep (drop from s.now)) }
    ensures upper_bound { result ≤ length s.now }
{
    match place_of(sep, &s[from..]) {
        Some(i) => from + i,
        None => s.len(),
    }
}

fn all_digits(w: &[u8]) -> bool
    ensures { result ≡ all (λ i. is_digit (get_or w.now i 0)) (length w.now) }
{
    w.iter().all(|x| matches!(*x, b'0'..=b'9'))
}

// Ten digits, which 64 bits hold.
fn value(w: &[u8]) -> u64
    requires w_len_bound { length w.now ≤ 10 }
    requires w_value { all (λ i. is_digit (get_or w.now i 0)) (length w.now) ≡ true }
    ensures { result ≡ value_of w.now }
{
    let mut v: u64 = 0;
    for x in w {
        v = v * 10 + (*x - b'0') as u64;
    }
    v
}

#[tactic(auto, unfolding(crate::specs::Word::is_number))]
pub fn number_in(w: &[u8]) -> Option<u32>
    ensures { result ≡ number_in w.now }
{
    if !matches!(w.len(), 1..=10) || !all_digits(w) {
        return None;
    }
    u32::try_from(value(w)).ok()
}

// The value of a hex digit.
#[tactic(auto, unfolding(crate::specs::Word::digit_of))]
fn digit_of(x: u8) -> Option<u8>
    ensures { result ≡ hex_in x }
{
    match x {
        b'0'..=b'9' => Some(x - b'0'),
        b'a'..=b'f' => Some(x - b'a' + 10),
        b'A'..=b'F' => Some(x - b'A' + 10),
        _ => None,
    }
}

fn all_hex(w: &[u8]) -> bool
    ensures { result ≡ all (λ i. is_hex (get_or w.now i 0)) (length w.now) }
{
    w.iter().all(|x| digit_of(*x).is_some())
}

fn is_dash(w: &[u8]) -> bool
    ensures { result ≡ is_dash w.now }
{
    matches!(w, b"-")
}

#[tactic(auto, unfolding(crate::specs::Word::is_packet))]
pub fn is_packet(w: &[u8]) -> bool
    ensures { result ≡ is_packet w.now }
{
    is_dash(w) || matches!(w.len(), 1..=4096) && w.len() % 2 == 0 && all_hex(w)
}

// Two digits at a time.
fn put_pairs(out: &mut [u8], at: usize, w: &[u8]) -> usize
    requires { all (λ i. is_hex (get_or w.now i 0)) (length w.now) ≡ true }
    ensures { Emits out.old at (pairs_of w.now) out.new result }
{
    let mut next = at;
    let mut rest = w;
    while let [high, low, more @ ..] = rest {
        let high = digit_of(*high).unwrap();
        let low = digit_of(*low).unwrap();
        next = put_octet(out, next, high * 16 + low);
        rest = more;
    }
    next
}

// How many octets a packet's word has.
pub fn packet_len(w: &[u8]) -> usize
    ensures { result ≡ length (packet_in w.now) }
{
    if is_dash(w) { 0 } else { w.len() / 2 }
}

// The octets of a packet's word.
pub fn put_packet(out: &mut [u8], at: usize, w: &[u8]) -> usize
    requires { is_packet w.now ≡ true }
    ensures { Emits out.old at (packet_in w.now) out.new result }
{
    if is_dash(w) {
        at
    } else {
        put_pairs(out, at, w)
    }
}
