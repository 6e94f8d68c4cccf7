// Prints octets and numbers in each of the texts that records have. The file stdout holds what the Rust's formats print.
#![tactic(auto)]

use octets::emit::put_octet;
use octets::text::{put_0x, put_decimal, put_hex, put_hex_octet, put_hex_word};
use std::io::{self, Stdout, Write};

const NUMBERS: [u32; 66] = [
    0, 1, 2, 9, 10, 11, 15, 16, 17, 99, 100, 101, 127, 128, 129, 255, 256, 257, 999, 1000, 1001,
    4095, 4096, 4097, 9999, 10000, 10001, 32767, 32768, 32769, 65535, 65536, 65537, 99999, 100000,
    100001, 999999, 1000000, 1000001, 1048575, 1048576, 1048577, 9999999, 10000000, 10000001,
    11259375, 16777215, 16777216, 16777217, 99999999, 100000000, 100000001, 268435455, 268435456,
    268435457, 305419896, 999999999, 1000000000, 1000000001, 2147483647, 2147483648, 2147483649,
    2882400018, 4000000000, 4294967294, 4294967295,
];

// Writes a line feed behind the first at octets, and all of it to standard output.
fn end_line(to: &mut Stdout, out: &mut [u8], at: usize) -> io::Result<()> {
    let n = put_octet(out, at, b'\n');
    if n <= out.len() {
        to.write_all(&out[..n])?;
    }
    Ok(())
}

fn octet_line(to: &mut Stdout, out: &mut [u8], x: u8) -> io::Result<()> {
    let a = put_hex_octet(out, 0, x);
    let b = put_octet(out, a, b' ');
    let c = put_0x(out, b, x);
    end_line(to, out, c)
}

fn number_line(to: &mut Stdout, out: &mut [u8], n: u32) -> io::Result<()> {
    let a = put_decimal(out, 0, n);
    let b = put_octet(out, a, b' ');
    let c = put_hex_word(out, b, n);
    end_line(to, out, c)
}

fn octet_lines(to: &mut Stdout, out: &mut [u8]) -> io::Result<()> {
    for x in 0..=255u8 {
        octet_line(to, out, x)?;
    }
    Ok(())
}

fn number_lines(to: &mut Stdout, out: &mut [u8]) -> io::Result<()> {
    for n in NUMBERS {
        number_line(to, out, n)?;
    }
    Ok(())
}

fn main(rt: HostRuntime) -> io::Result<()> {
    let mut to = rt.stdout();
    let mut out = [0u8; 64];
    octet_lines(&mut to, &mut out)?;
    number_lines(&mut to, &mut out)?;
    let n = put_hex(&mut out, 0, b"the end");
    end_line(&mut to, &mut out, n)
}
