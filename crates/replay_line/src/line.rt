// What a line says.
ghost use Rattle.std.specs.Prelude.{◌≡◌, Some, ◌≤◌, length, drop, get_or};
ghost use Rattle.octets.specs.Emit.{put};
ghost use Rattle.replay_line.specs.Word.{word_of, behind_word, number_in};
ghost use Rattle.replay_line.specs.Line.{seconds_of, size_in, close_of, tidy_of, push_at, push_of, line_by, line_of, has_packet, word_at, packet_of};

use crate::word::{find, is_packet, number_in, packet_len, put_packet};

// Whose push it is.
#[derive(Clone, Copy)]
pub enum Store {
    X25,
    Clnp,
    Cotp,
}

// Times are in seconds; size octets of a packet come with a push.
#[derive(Clone, Copy)]
pub enum Order {
    Push {
        store: Store,
        at: f64,
        link: u32,
        size: usize,
    },
    Tidy {
        at: f64,
        link: u32,
    },
    Close {
        link: u32,
    },
}

// P and N carry a packet of so many octets.
#[derive(Clone, Copy)]
pub enum Line {
    X25(usize),
    Network(usize),
    Ordered(Order),
}

fn seconds(ms: u32) -> f64
    ensures { result ≡ seconds_of ms }
{
    ms as f64 / 1000.0
}

// What stands behind the first word and its space.
fn behind_word(l: &[u8]) -> &[u8]
    ensures { result.now ≡ behind_word l.now }
{
    let end = find(b' ', l, 0);
    if end < l.len() { &l[end + 1..] } else { &[] }
}

fn first_number(l: &[u8]) -> Option<u32>
    ensures { result ≡ number_in (word_of l.now) }
{
    let end = find(b' ', l, 0);
    number_in(&l[..end])
}

// How many octets a packet has.
fn size_in(w: &[u8]) -> Option<usize>
    ensures { result ≡ size_in w.now }
{
    is_packet(w).then(|| packet_len(w))
}

fn close_of(r: &[u8]) -> Option<Line>
    ensures { result ≡ close_of r.now }
{
    let link = number_in(r)?;
    Some(Line::Ordered(Order::Close { link }))
}

fn tidy_of(r: &[u8]) -> Option<Line>
    ensures { result ≡ tidy_of r.now }
{
    let at = seconds(first_number(r)?);
    let link = number_in(behind_word(r))?;
    Some(Line::Ordered(Order::Tidy { at, link }))
}

// A link and a packet.
fn push_at(store: Store, ms: u32, r: &[u8]) -> Option<Line>
    ensures { result ≡ push_at store ms r.now }
{
    let at = seconds(ms);
    let link = first_number(r)?;
    let size = size_in(behind_word(r))?;
    Some(Line::Ordered(Order::Push {
        store,
        at,
        link,
        size,
    }))
}

fn push_of(store: Store, r: &[u8]) -> Option<Line>
    ensures { result ≡ push_of store r.now }
{
    push_at(store, first_number(r)?, behind_word(r))
}

// What follows a letter and its space.
#[tactic(auto, unfolding(crate::specs::Line::line_by))]
fn line_by(letter: u8, r: &[u8]) -> Option<Line>
    ensures { result ≡ line_by letter r.now }
{
    match letter {
        b'X' => push_of(Store::X25, r),
        b'C' => push_of(Store::Clnp, r),
        b'T' => push_of(Store::Cotp, r),
        b'E' => tidy_of(r),
        b'Q' => close_of(r),
        b'P' => size_in(r).map(Line::X25),
        b'N' => size_in(r).map(Line::Network),
        _ => None,
    }
}

#[tactic(auto, unfolding(crate::specs::Line::line_of))]
fn line_of(l: &[u8]) -> Option<Line>
    ensures { result ≡ line_of l.now }
{
    match l {
        [letter, b' ', r @ ..] => line_by(*letter, r),
        _ => None,
    }
}

fn has_packet(line: Line) -> bool
    ensures { result ≡ has_packet (Some line) }
{
    matches!(
        line,
        Line::X25(_) | Line::Network(_) | Line::Ordered(Order::Push { .. })
    )
}

// The packet's word.
fn word_at(l: &[u8]) -> &[u8]
    requires { 2 ≤ length l.now }
    ensures { result.now ≡ word_at (get_or l.now 0 0) (drop 2 l.now) }
{
    let r = &l[2..];
    match l[0] {
        b'P' | b'N' => r,
        _ => behind_word(behind_word(r)),
    }
}

// What a line, without its line feed, says; the octets of its packet are written at the front of packet, as far as it goes.
#[tactic(auto, unfolding(crate::specs::Line::packet_of))]
pub fn read_line(l: &[u8], packet: &mut [u8]) -> Option<Line>
    ensures value { result ≡ line_of l.now }
    ensures packet_after { packet.new ≡ put packet.old 0 (packet_of l.now) }
{
    let line = line_of(l)?;
    if has_packet(line) {
        put_packet(packet, 0, word_at(l));
    }
    Some(line)
}
