// The output lines.
ghost use Rattle.std.specs.Prelude.{[], ◌∷◌, ◌++◌, ◌≡◌, ◌↔◌, ℕ, List, length};
ghost use Rattle.octets.specs.Emit.{Emits};
ghost use Rattle.octets.specs.Text.{digits, decimal};
ghost use Rattle.replay_line.specs.Said.{said_with, text_said, octets_said};

use octets::emit::{put_octet, put_octets};
use octets::text::{put_decimal, put_digits, put_hex};

// Line number, answer and length, each with a space behind it.
fn put_numbers(out: &mut [u8], at: usize, number: u64, answer: u8, len: usize) -> usize
    ensures { Emits out.old at (digits 20 number ++ (32 ∷ decimal answer) ++ (32 ∷ decimal len) ++ (32 ∷ [])) out.new result }
{
    let numbered = put_digits(out, at, 20, number);
    let parted = put_octet(out, numbered, b' ');
    let answered = put_decimal(out, parted, answer as u32);
    let again = put_octet(out, answered, b' ');
    let measured = put_digits(out, again, 10, len as u64);
    put_octet(out, measured, b' ')
}

// With what tell puts for s, a function t of its octets; - where that is nothing.
fn put_said<F: FnOnce(&mut [u8], usize, &[u8]) -> usize>(
    out: &mut [u8],
    at: usize,
    number: u64,
    answer: u8,
    s: &[u8],
    tell: F,
) -> usize
    requires { F.IsAlwaysCallable tell }
    ensures { (t : List ℕ → List ℕ) → ((o : _) (a : ℕ) (x : _) (n : ℕ) (p : _) → F.post tell o a x n p → Emits o.now a (t x.now) p.now n)
        → (length s.now ≡ 0 ↔ length (t s.now) ≡ 0) → Emits out.old at (said_with number answer (length s.now) (t s.now)) out.new result }
{
    let headed = put_numbers(out, at, number, answer, s.len());
    let told = if s.is_empty() {
        put_octet(out, headed, b'-')
    } else {
        tell(out, headed, s)
    };
    put_octet(out, told, b'\n')
}

// With a text.
pub fn put_text_said(out: &mut [u8], at: usize, number: u64, answer: u8, t: &[u8]) -> usize
    ensures { Emits out.old at (text_said number answer t.now) out.new result }
{
    put_said(out, at, number, answer, t, put_octets)
}

// With octets, in hex.
pub fn put_octets_said(out: &mut [u8], at: usize, number: u64, answer: u8, s: &[u8]) -> usize
    ensures { Emits out.old at (octets_said number answer s.now) out.new result }
{
    put_said(out, at, number, answer, s, put_hex)
}
