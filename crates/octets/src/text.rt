// The texts of numbers and of octets, emitted.
ghost use Rattle.std.specs.Prelude.{◌≡◌, ◌-◌, ◌≤◌, ◌<◌, length, take, drop};
ghost use Rattle.octets.specs.Emit.{Emits};
ghost use Rattle.octets.specs.Text.{digits, decimal, hex_digit, hex_octet, hex, hex0x, hex_word};

use crate::emit::put_octet;

// At most the last k decimal digits of n, with no zero in front.
pub fn put_digits(out: &mut [u8], at: usize, k: usize, n: u64) -> usize
    ensures { Emits out.old at (digits k n) out.new result }
{
    if k == 0 {
        return at;
    }
    if 10 <= n {
        let next = put_digits(out, at, k - 1, n / 10);
        put_octet(out, next, 48 + (n % 10) as u8)
    } else {
        put_octet(out, at, 48 + (n % 10) as u8)
    }
}

pub fn put_decimal(out: &mut [u8], at: usize, n: u32) -> usize
    ensures { Emits out.old at (decimal n) out.new result }
{
    put_digits(out, at, 10, n as u64)
}

const HEX: [u8; 16] = [
    48, 49, 50, 51, 52, 53, 54, 55, 56, 57, 97, 98, 99, 100, 101, 102,
];

fn hex_digit(n: usize) -> u8
    requires { n < 16 }
    ensures { result ≡ hex_digit n }
{
    HEX[n]
}

pub fn put_hex_octet(out: &mut [u8], at: usize, x: u8) -> usize
    ensures { Emits out.old at (hex_octet x) out.new result }
{
    let high = hex_digit((x / 16) as usize);
    let low = hex_digit((x % 16) as usize);
    let next = put_octet(out, at, high);
    put_octet(out, next, low)
}

pub fn put_hex(out: &mut [u8], at: usize, s: &[u8]) -> usize
    ensures { Emits out.old at (hex s.now) out.new result }
{
    let mut next = at;
    for x in s {
        next = put_hex_octet(out, next, *x);
    }
    next
}

// The octets of s from place from up to, and not including, place to, in hex.
pub fn put_hex_part(out: &mut [u8], at: usize, s: &[u8], from: usize, to: usize) -> usize
    requires { (from ≤ to) × (to ≤ length s.now) }
    ensures { Emits out.old at (hex (take (to - from) (drop from s.now))) out.new result }
{
    put_hex(out, at, &s[from..to])
}

// 0x and two digits.
pub fn put_0x(out: &mut [u8], at: usize, x: u8) -> usize
    ensures { Emits out.old at (hex0x x) out.new result }
{
    let zero = put_octet(out, at, b'0');
    let next = put_octet(out, zero, b'x');
    put_hex_octet(out, next, x)
}

// Eight digits.
pub fn put_hex_word(out: &mut [u8], at: usize, n: u32) -> usize
    ensures { Emits out.old at (hex_word n) out.new result }
{
    let c = n / 256;
    let b = c / 256;
    let a = b / 256;
    let second = put_hex_octet(out, at, (a % 256) as u8);
    let third = put_hex_octet(out, second, (b % 256) as u8);
    let fourth = put_hex_octet(out, third, (c % 256) as u8);
    put_hex_octet(out, fourth, (n % 256) as u8)
}
