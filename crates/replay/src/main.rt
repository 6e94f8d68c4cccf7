// Answers each line of standard input: P and N decode a packet, as document 01's 'Replay' says.
#![tactic(auto)]

use octets::emit::put_octets;
use reply::reply;
use std::io::{self, Read, Stdin, Stdout, Write};

// Between two reads: the octets of the line so far, and the lines before it.
#[derive(Clone, Copy)]
struct State {
    size: usize,
    lines: u64,
}

// What the work is done in: the line so far, the octets of its packet, the cells and the text that document 01 lends, and the output.
#[derive(Drop)]
struct Room {
    line: [u8; 65536],
    packet: [u8; 4096],
    cells: [u64; 8192],
    text: [u8; 8192],
    out: [u8; 65536],
}

// What line has no room for was not kept: such a line is longer than any good one, and bad with and without it.
fn answer(room: &mut Room, at: usize, n: u64, size: usize) -> usize {
    let end = size.min(room.line.len());
    reply(
        &mut room.out,
        at,
        n,
        &room.line[..end],
        &mut room.packet,
        &mut room.cells,
        &mut room.text,
    )
}

fn flush(to: &mut Stdout, out: &[u8], at: usize) -> io::Result<()> {
    let end = at.min(out.len());
    to.write_all(&out[..end])
}

// Where the next answer, of at most 8,300 octets, might not fit, what there is is written.
fn is_full(out: &[u8], at: usize) -> bool {
    out.len() <= at.min(65536) + 8300
}

// Answers the lines that end in buf.
fn answer_some(to: &mut Stdout, buf: &[u8], before: State, room: &mut Room) -> io::Result<State> {
    let State {
        mut size,
        mut lines,
    } = before;
    let mut at: usize = 0;
    let mut rest = buf;
    while let Some(end) = rest.iter().position(|x| *x == b'\n') {
        size = put_octets(&mut room.line, size, &rest[..end]);
        rest = &rest[end + 1..];
        lines = lines.saturating_add(1);
        at = answer(room, at, lines, size);
        size = 0;
        if is_full(&room.out, at) {
            flush(to, &room.out, at)?;
            at = 0;
        }
    }
    size = put_octets(&mut room.line, size, rest);
    if 0 < at {
        flush(to, &room.out, at)?;
    }
    Ok(State { size, lines })
}

// The last line may lack its line feed.
fn answer_last(to: &mut Stdout, before: State, room: &mut Room) -> io::Result<()> {
    if 0 < before.size {
        let at = answer(room, 0, before.lines.saturating_add(1), before.size);
        flush(to, &room.out, at)?;
    }
    Ok(())
}

// A proved loop has to end, and nothing says that the input does: it counts its turns, up to a number that no run uses up.
fn run(from: &mut Stdin, to: &mut Stdout, buf: &mut [u8], room: &mut Room) -> io::Result<()> {
    let mut state = State { size: 0, lines: 0 };
    for _ in 0..u64::MAX {
        let n = match from.read(buf) {
            Ok(n) => n,
            Err(e) => {
                answer_last(to, state, room)?;
                return Err(e);
            }
        };
        if n == 0 {
            return answer_last(to, state, room);
        }
        state = answer_some(to, &buf[..n], state, room)?;
    }
    Ok(())
}

fn main(rt: HostRuntime) -> io::Result<()> {
    let mut from = rt.stdin();
    let mut to = rt.stdout();
    let mut buf = [0; 65536];
    let mut room = Room {
        line: [0; 65536],
        packet: [0; 4096],
        cells: [0; 8192],
        text: [0; 8192],
        out: [0; 65536],
    };
    run(&mut from, &mut to, &mut buf, &mut room)
}
