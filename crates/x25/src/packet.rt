// What an X.25 packet's octets say: one function for each kind.
ghost use Rattle.std.specs.Prelude.{◌≡◌, true, ◌+◌, ◌%◌, ◌<◌, min, length, None};
ghost use Rattle.names.specs.Numbers.{t_clear_request, t_reset_request, t_restart_request};
ghost use Rattle.codes.specs.Codes.{clear_causes, reset_causes, restart_causes, diagnostics};
ghost use Rattle.x25.specs.Packet.{octet_at, plain as plain_of, lcn_of, data_of, received as receivedOf, cause_in, text_of, request_of, diagnostic_of, fac_pos, fac_end, fac_read, call_with, has_facilities, call_request, call_accepted, by_type, known, read_of};

use crate::sndcf::field_at;
use codes::{x25_clear_cause, x25_diagnostic, x25_reset_cause, x25_restart_cause};
use names::text::{
    CALL_ACCEPTED, CALL_REQUEST, CLEAR_CONFIRMATION, CLEAR_REQUEST, DATA, DIAGNOSTIC, REJ,
    RESET_CONFIRMATION, RESET_REQUEST, RESTART_CONFIRMATION, RESTART_REQUEST, RNR, RR,
};
use octets::read::{u16_of, wide};

// The kind and the two texts are text numbers, 0 for no text; the facilities and the payload are places of the input.
#[derive(Clone, Copy, PartialEq, Eq)]
pub struct Packet {
    pub kind: u32,
    pub lcn: u16,
    pub ps: Option<u8>,
    pub pr: Option<u8>,
    pub more: u8,
    pub cause: Option<u8>,
    pub causetext: u32,
    pub diagnostic: Option<u8>,
    pub diagtext: u32,
    pub facat: usize,
    pub faclen: usize,
    pub sndcf: Option<u8>,
    pub version: u8,
    pub payload: usize,
}

fn octet_at(b: &[u8], i: usize) -> Option<u8>
    ensures { result ≡ octet_at b.now i }
{
    b.get(i).copied()
}

fn plain(kind: u32, lcn: u16, n: usize) -> Packet
    ensures { result ≡ plain_of kind lcn n }
{
    Packet {
        kind,
        lcn,
        ps: None,
        pr: None,
        more: 0,
        cause: None,
        causetext: 0,
        diagnostic: None,
        diagtext: 0,
        facat: 0,
        faclen: 0,
        sndcf: None,
        version: 0,
        payload: n,
    }
}

fn channel(b: &[u8]) -> u16
    requires { 2 < length b.now }
    ensures { result ≡ lcn_of b.now }
{
    u16_of(b[0] % 16, b[1])
}

fn sequenced(b: &[u8], t: u8) -> Packet
    requires { 2 < length b.now }
    ensures { result ≡ data_of b.now t }
{
    Packet {
        ps: Some(t / 2 % 8),
        pr: Some(t / 32),
        more: t / 16 % 2,
        payload: 3,
        ..plain(DATA, channel(b), b.len())
    }
}

fn received(kind: u32, b: &[u8], sequence: u8) -> Packet
    requires { 2 < length b.now }
    ensures { result ≡ receivedOf kind b.now sequence }
{
    Packet {
        pr: Some(sequence / 32),
        ..plain(kind, channel(b), b.len())
    }
}

// A cause, or 0 for the remote side's own.
fn cause_at(b: &[u8]) -> Option<u8>
    ensures { result ≡ cause_in (octet_at b.now 3) }
{
    let raw = octet_at(b, 3)?;
    if raw < 128 { Some(raw) } else { Some(0) }
}

// A request with its cause, whose text its own table has.
fn request(kind: u32, b: &[u8], cause: Option<u8>, causetext: u32) -> Packet
    requires { 2 < length b.now }
    ensures { result ≡ record { kind = kind; lcn = lcn_of b.now; ps = None; pr = None; more = 0; cause = cause; causetext = causetext; diagnostic = octet_at b.now 4; diagtext = text_of diagnostics (octet_at b.now 4); facat = 0; faclen = 0; sndcf = None; version = 0; payload = length b.now } }
{
    let diagnostic = octet_at(b, 4);
    Packet {
        cause,
        causetext,
        diagnostic,
        diagtext: diagnostic.map_or(0, x25_diagnostic),
        ..plain(kind, channel(b), b.len())
    }
}

// What the three requests share is `request`: what is left of each is its kind and its table.
fn clear_request(b: &[u8]) -> Packet
    requires { 2 < length b.now }
    ensures { result ≡ request_of t_clear_request clear_causes b.now }
{
    let cause = cause_at(b);
    request(CLEAR_REQUEST, b, cause, cause.map_or(0, x25_clear_cause))
}

fn reset_request(b: &[u8]) -> Packet
    requires { 2 < length b.now }
    ensures { result ≡ request_of t_reset_request reset_causes b.now }
{
    let cause = cause_at(b);
    request(RESET_REQUEST, b, cause, cause.map_or(0, x25_reset_cause))
}

fn restart_request(b: &[u8]) -> Packet
    requires { 2 < length b.now }
    ensures { result ≡ request_of t_restart_request restart_causes b.now }
{
    let cause = cause_at(b);
    request(
        RESTART_REQUEST,
        b,
        cause,
        cause.map_or(0, x25_restart_cause),
    )
}

fn diagnostic(b: &[u8]) -> Packet
    requires { 2 < length b.now }
    ensures { result ≡ diagnostic_of b.now }
{
    let diagnostic = octet_at(b, 3);
    Packet {
        diagnostic,
        diagtext: diagnostic.map_or(0, x25_diagnostic),
        ..plain(DIAGNOSTIC, channel(b), b.len())
    }
}

// The place of the facilities' length: behind the address block, of two digits in an octet.
fn fac_pos(b: &[u8]) -> usize
    requires { 3 < length b.now }
    ensures { (result ≡ fac_pos b.now) × (result < 512) }
{
    4 + (wide(b[3] % 16) + wide(b[3] / 16) + 1) / 2
}

fn has_facilities(b: &[u8]) -> bool
    ensures { result ≡ has_facilities b.now }
{
    3 < b.len() && fac_pos(b) < b.len()
}

// The place behind the facilities, which may be past the end.
fn fac_end(b: &[u8]) -> usize
    requires { has_facilities b.now ≡ true }
    ensures { (result ≡ fac_end b.now) × (result < 1024) }
{
    let p = fac_pos(b);
    p + 1 + wide(b[p])
}

// How many octets of facilities are read: none where they run past the end.
fn fac_read(b: &[u8]) -> usize
    requires { has_facilities b.now ≡ true }
    ensures { result ≡ fac_read b.now }
{
    let p = fac_pos(b);
    let n = wide(b[p]);
    if p + 1 + n <= b.len() { n } else { 0 }
}

fn call(kind: u32, b: &[u8], sndcf: Option<u8>, version: u8, pos: usize) -> Packet
    requires { has_facilities b.now ≡ true }
    ensures { result ≡ call_with kind b.now sndcf version pos }
{
    Packet {
        facat: fac_pos(b) + 1,
        faclen: fac_read(b),
        sndcf,
        version,
        ..plain(kind, channel(b), pos.min(b.len()))
    }
}

fn call_request(b: &[u8]) -> Packet
    requires { 2 < length b.now }
    ensures { result ≡ call_request b.now }
{
    if !has_facilities(b) {
        return plain(CALL_REQUEST, channel(b), b.len());
    }
    let p = fac_end(b);
    match field_at(b, p) {
        None => call(CALL_REQUEST, b, None, 0, p),
        Some(field) => call(CALL_REQUEST, b, Some(field.octet), 1, field.end),
    }
}

// The octet behind the facilities is the compression octet.
fn call_accepted(b: &[u8]) -> Packet
    requires { 2 < length b.now }
    ensures { result ≡ call_accepted b.now }
{
    if !has_facilities(b) {
        return plain(CALL_ACCEPTED, channel(b), b.len());
    }
    let p = fac_end(b);
    call(CALL_ACCEPTED, b, octet_at(b, p), 0, p + 1)
}

// What is neither data nor RR, RNR, REJ.
fn control(b: &[u8], t: u8) -> Packet
    requires { (2 < length b.now) × (0 < t % 2) × (t % 32 ≡ 1 → ⊥) × (t % 32 ≡ 5 → ⊥) × (t % 32 ≡ 9 → ⊥) }
    ensures { result ≡ by_type b.now t }
{
    match t {
        0x0B => call_request(b),
        0x0F => call_accepted(b),
        0x13 => clear_request(b),
        0x1B => reset_request(b),
        0xFB => restart_request(b),
        0x17 => plain(CLEAR_CONFIRMATION, channel(b), b.len()),
        0x1F => plain(RESET_CONFIRMATION, channel(b), b.len()),
        0xFF => plain(RESTART_CONFIRMATION, channel(b), b.len()),
        0xF1 => diagnostic(b),
        _ => plain(0, 0, b.len()),
    }
}

fn by_type(b: &[u8], t: u8) -> Packet
    requires { 2 < length b.now }
    ensures { result ≡ by_type b.now t }
{
    if t % 2 == 0 {
        return sequenced(b, t);
    }
    match t % 32 {
        1 => received(RR, b, t),
        5 => received(RNR, b, t),
        9 => received(REJ, b, t),
        _ => control(b, t),
    }
}

// Three octets or more, at modulo 8; nothing where they are not readable, whose kind is 0.
pub fn read(b: &[u8]) -> Option<Packet>
    ensures { result ≡ read_of b.now }
{
    if b.len() < 3 || b[0] / 16 % 4 != 1 {
        return None;
    }
    let x = by_type(b, b[2]);
    if x.kind == 0 {
        return None;
    }
    Some(x)
}
