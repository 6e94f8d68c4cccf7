// The output line of an input line.
#![tactic(auto)]

ghost use Rattle.std.specs.Prelude.{◌≤◌, length, take};
ghost use Rattle.octets.specs.Emit.{Emits};
ghost use Rattle.cells.specs.Answer.{count_of, number_of};
ghost use Rattle.x25.specs.Packet.{x25_cells};
ghost use Rattle.network.specs.Network.{network_cells};
ghost use Rattle.replay_line.specs.Said.{text_said};
ghost use Rattle.reply.specs.Shown.{Shows};
ghost use Rattle.reply.specs.Reply.{said_of, reply_of};

use cells::answer::{Answer, count, number};
use network::parse_network;
use print::print;
use replay_line::line::{Line, read_line};
use replay_line::said::put_text_said;
use x25::x25_record;

// Prints what a parser left in the first cells, if it answered 0.
fn show(a: Answer, cells: &[u64], s: &[u8], text: &mut [u8]) -> Answer
    requires { count_of a ≤ length cells.now }
    ensures { Shows a (take (count_of a) cells.now) s.now text.old result text.new }
{
    match a {
        Ok(n) => print(&cells[..n], s, text),
        Err(r) => Err(r),
    }
}

// The line of an answer, with the text that comes with it.
fn say(out: &mut [u8], at: usize, n: u64, a: Answer, text: &[u8]) -> usize
    requires { count_of a ≤ length text.now }
    ensures { Emits out.old at (text_said n (number_of a) (take (count_of a) text.now)) out.new result }
{
    let size = count(a);
    put_text_said(out, at, n, number(a), &text[..size])
}

// Not one function over the parser, with `reply_network`: its list of cells would be an argument of the specification alone, and
// its body has two lines.
fn reply_x25(
    out: &mut [u8],
    at: usize,
    n: u64,
    s: &[u8],
    cells: &mut [u64],
    text: &mut [u8],
) -> usize
    ensures { Emits out.old at (said_of (length cells.old) (length text.old) n (x25_cells s.now) s.now) out.new result }
{
    let a = x25_record(s, cells);
    let shown = show(a, cells, s, text);
    say(out, at, n, shown, text)
}

fn reply_network(
    out: &mut [u8],
    at: usize,
    n: u64,
    s: &[u8],
    cells: &mut [u64],
    text: &mut [u8],
) -> usize
    ensures { Emits out.old at (said_of (length cells.old) (length text.old) n (network_cells s.now) s.now) out.new result }
{
    let a = parse_network(s, cells);
    let shown = show(a, cells, s, text);
    say(out, at, n, shown, text)
}

// The answer to line number n, which is l without its line feed; packet, cells and text are lent for the work.
pub fn reply(
    out: &mut [u8],
    at: usize,
    n: u64,
    l: &[u8],
    packet: &mut [u8],
    cells: &mut [u64],
    text: &mut [u8],
) -> usize
    requires { 2048 ≤ length packet.old }
    ensures { Emits out.old at (reply_of (length cells.old) (length text.old) n l.now) out.new result }
{
    match read_line(l, packet) {
        Some(Line::X25(size)) => reply_x25(out, at, n, &packet[..size], cells, text),
        Some(Line::Network(size)) => reply_network(out, at, n, &packet[..size], cells, text),
        Some(Line::Ordered(_)) => put_text_said(out, at, n, 17, &[]),
        None => put_text_said(out, at, n, 17, &[]),
    }
}
