// Prints records made by hand: all forms, nested groups, and refusals. A line has the answer's number, its length, and the
// text, or - where there is none.
#![tactic(auto)]

use cells::answer::{count, number};
use cells::emit::{
    close_group, open_list, open_object, put_flag, put_hex_part, put_number, put_octet_leaf,
    put_prefix, put_text_number, put_word_leaf,
};
use octets::emit::put_octet;
use octets::text::put_decimal;
use print::print;
use std::io::{self, Stdout, Write};

const INPUT: [u8; 8] = [0, 1, 9, 15, 16, 171, 205, 255];

// Single cells, by field, form, depth, length and value: well formed inside an object, and just not.
const TRIED: [u64; 25] = [
    0x05_1_1_0000_00000002,
    0x05_1_1_0000_00000001,
    0x2e_8_1_0000_00000100,
    0x2e_8_1_0000_000000ff,
    0x14_2_1_0008_00000001,
    0x14_2_1_0007_00000001,
    0x14_2_1_0000_00000009,
    0x14_2_1_0000_00000008,
    0x29_7_1_0002_00000008,
    0x29_7_1_0001_00000008,
    0x29_7_1_0002_00000709,
    0x29_7_1_0002_00000609,
    0x3c_3_1_0000_00000000,
    0x3c_3_1_0000_00000121,
    0x3c_3_1_0000_00000120,
    0x00_0_1_0000_00000001,
    0x5b_0_1_0000_00000001,
    0x5a_0_1_0000_00000001,
    0x01_0_1_0001_00000001,
    0x01_9_1_0001_00000001,
    0x01_0_0_0000_00000001,
    0x01_0_2_0000_00000001,
    0x01_a_1_0000_00000001,
    0x00_6_0_0000_00000000,
    0x01_4_1_0000_00000000,
];

fn put_head(to: &mut Stdout, answer: u8, size: usize) -> io::Result<()> {
    let mut line = [0u8; 32];
    let a = put_decimal(&mut line, 0, answer as u32);
    let b = put_octet(&mut line, a, b' ');
    let c = put_decimal(&mut line, b, (size % 65536) as u32);
    let d = put_octet(&mut line, c, b' ');
    if d <= 32 {
        to.write_all(&line[..d])?;
    }
    Ok(())
}

fn show(to: &mut Stdout, cells: &[u64], n: usize, input: &[u8], out: &mut [u8]) -> io::Result<()> {
    if n <= cells.len() {
        let answer = print(&cells[..n], input, out);
        let size = count(answer);
        put_head(to, number(answer), size)?;
        if size == 0 {
            to.write_all(b"-")?;
        } else if size <= out.len() {
            to.write_all(&out[..size])?;
        }
        to.write_all(b"\n")?;
    }
    Ok(())
}

fn empty(cells: &mut [u64]) -> usize {
    let a = open_object(cells, 0, 0, 0);
    close_group(cells, a, 0)
}

// As `parse_x25` gives for 10 02 00 43.
fn data_packet(cells: &mut [u64]) -> usize {
    let a = open_object(cells, 0, 0, 0);
    let b = put_number(cells, a, 1, names::key::LCN, 2);
    let c = put_text_number(cells, b, 1, names::key::KIND, names::text::DATA);
    let d = put_number(cells, c, 1, names::key::PS, 0);
    let e = put_number(cells, d, 1, names::key::PR, 0);
    let f = put_flag(cells, e, 1, names::key::MORE, 0);
    close_group(cells, f, 0)
}

// The forms of leaves, each at its ends.
fn numbers(cells: &mut [u64]) -> usize {
    let a = open_object(cells, 0, 0, 0);
    let b = put_number(cells, a, 1, 1, 0);
    let c = put_number(cells, b, 1, names::key::LAST, 4294967295);
    words(cells, c)
}

fn words(cells: &mut [u64], at: usize) -> usize {
    let a = put_word_leaf(cells, at, 1, 20, 0);
    let b = put_word_leaf(cells, a, 1, 37, 4294967295);
    let c = put_octet_leaf(cells, b, 1, 46, 0);
    let d = put_octet_leaf(cells, c, 1, 46, 255);
    close_group(cells, d, 0)
}

fn texts(cells: &mut [u64]) -> usize {
    let a = open_object(cells, 0, 0, 0);
    let b = put_text_number(cells, a, 1, 60, 1);
    let c = put_text_number(cells, b, 1, 60, names::text::LAST);
    let d = put_flag(cells, c, 1, 5, 1);
    let e = put_hex_part(cells, d, 1, 20, 0, 8);
    let f = put_hex_part(cells, e, 1, 20, 8, 0);
    close_group(cells, f, 0)
}

fn prefixes(cells: &mut [u64]) -> usize {
    let a = open_object(cells, 0, 0, 0);
    let b = open_list(cells, a, 1, names::key::PREFIXES);
    let c = put_prefix(cells, b, 2, 0, 8, 0, 0);
    let d = put_prefix(cells, c, 2, 0, 3, 2, 12);
    let e = put_prefix(cells, d, 2, 0, 0, 8, 64);
    let f = close_group(cells, e, 1);
    close_group(cells, f, 0)
}

// Empty groups, lists in objects and objects in lists.
fn groups(cells: &mut [u64]) -> usize {
    let a = open_object(cells, 0, 0, 0);
    let b = open_list(cells, a, 1, names::key::OPTIONS);
    let c = close_group(cells, b, 1);
    let d = open_object(cells, c, 1, names::key::UPDATE);
    let e = close_group(cells, d, 1);
    let f = open_list(cells, e, 1, names::key::FACILITIES);
    entries(cells, f)
}

fn entries(cells: &mut [u64], at: usize) -> usize {
    let a = open_object(cells, at, 2, 0);
    let b = put_number(cells, a, 3, names::key::CODE, 7);
    let c = close_group(cells, b, 2);
    last_entry(cells, c)
}

fn last_entry(cells: &mut [u64], at: usize) -> usize {
    let a = open_list(cells, at, 2, 0);
    let b = put_octet_leaf(cells, a, 3, 0, 10);
    let c = put_octet_leaf(cells, b, 3, 0, 11);
    let d = close_group(cells, c, 2);
    let e = close_group(cells, d, 1);
    close_group(cells, e, 0)
}

fn open_lists(cells: &mut [u64], from: usize) -> usize {
    let mut at = from;
    for d in 2..15u8 {
        at = open_list(cells, at, d, 0);
    }
    at
}

fn close_groups(cells: &mut [u64], from: usize) -> usize {
    let mut at = from;
    for d in 0..15u8 {
        at = close_group(cells, at, 14 - d);
    }
    at
}

// Lists in lists, down to the deepest cell that a record can have.
fn deep(cells: &mut [u64]) -> usize {
    let a = open_object(cells, 0, 0, 0);
    let b = open_list(cells, a, 1, names::key::VALUE);
    let c = open_lists(cells, b);
    let d = put_number(cells, c, 15, 0, 15);
    close_groups(cells, d)
}

// An object with one cell inside, whatever it is.
fn single(cells: &mut [u64], c: u64) -> usize {
    let a = open_object(cells, 0, 0, 0);
    if a < cells.len() {
        cells[a] = c;
        return close_group(cells, 2, 0);
    }
    a
}

fn singles(to: &mut Stdout, cells: &mut [u64], out: &mut [u8]) -> io::Result<()> {
    for c in TRIED {
        let n = single(cells, c);
        show(to, cells, n, &INPUT, out)?;
    }
    Ok(())
}

// The whole text fits, or it is one octet too long.
fn rooms(to: &mut Stdout, cells: &mut [u64]) -> io::Result<()> {
    let n = data_packet(cells);
    let input = INPUT;
    let mut enough = [0u8; 50];
    let mut short = [0u8; 49];
    show(to, cells, n, &input, &mut enough)?;
    show(to, cells, n, &input, &mut short)
}

// The last cell left out, and all of them.
fn cut(to: &mut Stdout, cells: &mut [u64], out: &mut [u8]) -> io::Result<()> {
    data_packet(cells);
    let input = INPUT;
    show(to, cells, 6, &input, out)?;
    show(to, cells, 0, &input, out)
}

fn long_inputs(to: &mut Stdout, cells: &mut [u64], out: &mut [u8]) -> io::Result<()> {
    let n = empty(cells);
    let longest = [0u8; 65535];
    let longer = [0u8; 65536];
    show(to, cells, n, &longest, out)?;
    show(to, cells, n, &longer, out)
}

fn records(to: &mut Stdout, cells: &mut [u64], out: &mut [u8]) -> io::Result<()> {
    let input = INPUT;
    let a = empty(cells);
    show(to, cells, a, &input, out)?;
    let b = data_packet(cells);
    show(to, cells, b, &input, out)
}

fn leaves(to: &mut Stdout, cells: &mut [u64], out: &mut [u8]) -> io::Result<()> {
    let input = INPUT;
    let a = numbers(cells);
    show(to, cells, a, &input, out)?;
    let b = texts(cells);
    show(to, cells, b, &input, out)
}

fn nested(to: &mut Stdout, cells: &mut [u64], out: &mut [u8]) -> io::Result<()> {
    let input = INPUT;
    let a = prefixes(cells);
    show(to, cells, a, &input, out)?;
    let b = groups(cells);
    show(to, cells, b, &input, out)?;
    let c = deep(cells);
    show(to, cells, c, &input, out)
}

fn main(rt: HostRuntime) -> io::Result<()> {
    let mut to = rt.stdout();
    let mut cells = [0u64; 64];
    let mut out = [0u8; 512];
    records(&mut to, &mut cells, &mut out)?;
    leaves(&mut to, &mut cells, &mut out)?;
    nested(&mut to, &mut cells, &mut out)?;
    singles(&mut to, &mut cells, &mut out)?;
    rooms(&mut to, &mut cells)?;
    cut(&mut to, &mut cells, &mut out)?;
    long_inputs(&mut to, &mut cells, &mut out)
}
