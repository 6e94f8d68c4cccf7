// A list of block numbers in which none stands twice, with its inverse, and the octets that it spells.
#![tactic(auto)]

ghost use Rattle.std.specs.Prelude.{◌≡◌, true, ◌++◌, ℕ, ◌+◌, ◌*◌, ◌-◌, ◌≤◌, ◌<◌, length, get_or, take, drop};
ghost use Rattle.octets.specs.Emit.{put};
ghost use Rattle.octets.specs.Tests.{all};
ghost use Rattle.chain.specs.Chain.{chain_ok, home_at, homed, in_use_at, flat, swapped, Stretch, Resized, Spliced};

use crate::source::Source;
use octets::emit::copy;

pub mod source;

// Whether the m entries from i on go up one by one from x on, and so do their homes. It counts, and leaves no loop early, so
// that the compiler compares many at once.
fn in_step(list: &[u16], home: &[u16], i: usize, x: usize, m: usize) -> bool
    requires { (i + m ≤ length list.now) × (x + m ≤ length home.now) × (i + m ≤ 1024) × (x + m ≤ 1024) }
    ensures { result ≡ true → (t : ℕ) → t < m → (get_or list.now (i + t) 0 ≡ x + t) × (get_or home.now (x + t) 0 ≡ i + t) }
{
    let a = x as u16;
    let h = i as u16;
    let mut n: u16 = 0;
    for t in 0..m {
        n += u16::from(list[i + t] == a + t as u16) + u16::from(home[x + t] == h + t as u16);
    }
    n as usize == 2 * m
}

// Whether the m entries from i on are blocks below b, each at its home.
fn each_ok(list: &[u16], home: &[u16], b: usize, i: usize, m: usize) -> bool
    requires { (i + m ≤ length list.now) × (b ≤ length home.now) }
    ensures { result ≡ all (λ t. home_at home.now list.now b (i + t)) m }
{
    for t in 0..m {
        let x = list[i + t] as usize;
        if b <= x || home[x] as usize != i + t {
            return false;
        }
    }
    true
}

// The same, fast where the blocks follow each other.
fn stretch_ok(list: &[u16], home: &[u16], b: usize, i: usize, m: usize) -> bool
    requires { (0 < m) × (i + m ≤ length list.now) × (b ≤ length home.now) × (i + m ≤ 1024) × (b ≤ 1024) }
    ensures { result ≡ all (λ t. home_at home.now list.now b (i + t)) m }
{
    let x = list[i] as usize;
    if x + m <= b && list[i + m - 1] as usize == x + m - 1 && in_step(list, home, i, x, m) {
        return true;
    }
    each_ok(list, home, b, i, m)
}

// The same of fewer than 64 entries.
fn rest_ok(list: &[u16], home: &[u16], b: usize, i: usize, m: usize) -> bool
    requires { (i + m ≤ length list.now) × (b ≤ length home.now) × (i + m ≤ 1024) × (b ≤ 1024) }
    ensures { result ≡ all (λ t. home_at home.now list.now b (i + t)) m }
{
    if m < 32 {
        return each_ok(list, home, b, i, m);
    }
    stretch_ok(list, home, b, i, 32) && each_ok(list, home, b, i + 32, m - 32)
}

// Whether the first n entries are blocks below b, each at its home.
pub fn homed_ok(list: &[u16], home: &[u16], b: usize, n: usize) -> bool
    requires { (n ≤ length list.now) × (b ≤ length home.now) × (n ≤ b) × (b ≤ 1024) }
    ensures { result ≡ homed home.now list.now b n }
{
    if n < 32 {
        return each_ok(list, home, b, 0, n);
    }
    for k in 0..n / 64 {
        if !stretch_ok(list, home, b, 64 * k, 64) {
            return false;
        }
    }
    rest_ok(list, home, b, n - n % 64, n % 64)
}

// The home of each entry from p on, up to n, is set.
fn rehome(list: &[u16], home: &mut [u16], b: usize, p: usize, n: usize)
    requires { (p ≤ n) × (n ≤ length list.now) × (n ≤ 1024) × (b ≤ length home.old) × (chain_ok b (take n list.now) ≡ true) × (homed home.old list.now b p ≡ true) }
    ensures { homed home.new list.now b n ≡ true }
{
    for i in p..n {
        home[list[i] as usize] = i as u16;
    }
}

// Whether x is one of the first n.
fn in_use(list: &[u16], home: &[u16], n: usize, x: usize) -> bool
    requires { (n ≤ length list.now) × (x < length home.now) }
    ensures { result ≡ in_use_at home.now list.now n x }
{
    let h = home[x] as usize;
    h < n && list[h] as usize == x
}

// A block that is none of the first n is put behind them.
fn one_more(list: &mut [u16], home: &mut [u16], b: usize, n: usize)
    requires { (n < b) × (b ≤ 1024) × (b ≤ length list.old) × (b ≤ length home.old) × (homed home.old list.old b n ≡ true) }
    ensures { (take n list.new ≡ take n list.old) × (homed home.new list.new b (n + 1) ≡ true) }
{
    let c = list[n] as usize;
    if c < b && !in_use(list, home, n, c) {
        home[c] = n as u16;
        return;
    }
    for x in 0..b {
        if !in_use(list, home, n, x) {
            list[n] = x as u16;
            home[x] = n as u16;
            return;
        }
    }
}

// m blocks that are none of the first n are put behind them.
fn more(list: &mut [u16], home: &mut [u16], b: usize, n: usize, m: usize)
    requires { (n + m ≤ b) × (b ≤ 1024) × (b ≤ length list.old) × (b ≤ length home.old) × (homed home.old list.old b n ≡ true) }
    ensures { (take n list.new ≡ take n list.old) × (homed home.new list.new b (n + m) ≡ true) }
{
    for i in n..n + m {
        one_more(list, home, b, i);
    }
}

// The runs from p to q and from q to e, N entries together at most, change places. Not by `rotate_left`: a push of 128 octets took
// half as long again with it.
fn swap_within<const N: usize>(list: &mut [u16], p: usize, q: usize, e: usize)
    requires { (p ≤ q) × (q ≤ e) × (e ≤ length list.old) × (e ≤ p + N) × (N ≤ 1024) }
    ensures { list.new ≡ swapped list.old p q e }
{
    let mut s = [0u16; N];
    copy(&mut s, 0, list, q, e - q);
    copy(&mut s, e - q, list, p, q - p);
    copy(list, p, &s, 0, e - p);
}

fn swap_runs(list: &mut [u16], p: usize, q: usize, e: usize)
    requires { (p ≤ q) × (q ≤ e) × (e ≤ length list.old) × (e ≤ p + 1024) }
    ensures { list.new ≡ swapped list.old p q e }
{
    if e - p <= 128 {
        swap_within::<128>(list, p, q, e)
    } else {
        swap_within::<1024>(list, p, q, e)
    }
}

// m blocks that were free stand from p on, in front of what stood there.
fn insert(list: &mut [u16], home: &mut [u16], b: usize, n: usize, p: usize, m: usize)
    requires { (p ≤ n) × (n + m ≤ b) × (b ≤ 1024) × (b ≤ length list.old) × (b ≤ length home.old) × (homed home.old list.old b n ≡ true) }
    ensures { (take (n + m) list.new ≡ take p list.old ++ (take m (drop p list.new) ++ take (n - p) (drop p list.old))) × (homed home.new list.new b (n + m) ≡ true) }
{
    more(list, home, b, n, m);
    if p < n {
        swap_runs(list, p, n, n + m);
        rehome(list, home, b, p, n + m);
    }
}

// The blocks from p to q are free.
pub fn release(list: &mut [u16], home: &mut [u16], b: usize, n: usize, p: usize, q: usize)
    requires { (p ≤ q) × (q ≤ n) × (n ≤ b) × (b ≤ 1024) × (b ≤ length list.old) × (b ≤ length home.old) × (homed home.old list.old b n ≡ true) }
    ensures { (take (n - (q - p)) list.new ≡ take p list.old ++ take (n - q) (drop q list.old)) × (homed home.new list.new b (n - (q - p)) ≡ true) }
{
    if q < n {
        swap_runs(list, p, q, n);
        rehome(list, home, b, p, n - (q - p));
    }
}

// How many blocks follow each other from entry i on, counted up to m.
fn run(list: &[u16], i: usize, m: usize) -> usize
    requires { (0 < m) × (i + m ≤ length list.now) }
    ensures { (1 ≤ result) × (result ≤ m) × ((t : ℕ) → t < result → get_or list.now (i + t) 0 ≡ get_or list.now i 0 + t) }
{
    let x = list[i] as usize;
    for t in 1..m {
        if list[i + t] as usize != x + t {
            return t;
        }
    }
    m
}

// Where in blocks place v of the octets stands that a list spells, and how many of them from there on, up to m, stand there
// one behind the other.
fn stretch(list: &[u16], v: usize, m: usize) -> (usize, usize)
    requires { (0 < m) × (v + m ≤ 64 * length list.now) × (v + m ≤ usize.MAX) }
    ensures some { (0 < result.1) × (result.1 ≤ m) }
    ensures stretch { (b n : ℕ) → n ≤ length list.now → chain_ok b (take n list.now) ≡ true → v + m ≤ 64 * n → Stretch b (take n list.now) v result.0 result.1 }
{
    let i = v / 64;
    let k = v % 64;
    let long = 64 * run(list, i, (k + m - 1) / 64 + 1) - k;
    (64 * list[i] as usize + k, long.min(m))
}

// The octets of src, written at place v of the octets that the first n entries spell.
pub fn write_at<S: Source>(list: &[u16], blocks: &mut [u8], b: usize, n: usize, v: usize, src: S)
    requires { (n ≤ b) × (n ≤ length list.now) × (chain_ok b (take n list.now) ≡ true) × (64 * b ≤ length blocks.old) × (v + length (S.octets src) ≤ 64 * n) }
    ensures { flat blocks.new (take n list.now) ≡ put (flat blocks.old (take n list.now)) v (S.octets src) }
{
    // No `for`, here and below: by stretches, which are not equally long.
    let mut done: usize = 0;
    while done < src.len() {
        let (at, part) = stretch(list, v + done, src.len() - done);
        src.put(blocks, at, done, part);
        done += part;
    }
}

// out with m octets from index at replaced by those from place v of the octets that the first n entries spell.
pub fn read_at(
    list: &[u16],
    blocks: &[u8],
    b: usize,
    n: usize,
    v: usize,
    out: &mut [u8],
    at: usize,
    m: usize,
)
    requires { (n ≤ b) × (n ≤ length list.now) × (chain_ok b (take n list.now) ≡ true) × (64 * b ≤ length blocks.now) × (v + m ≤ 64 * n) × (at + m ≤ length out.old) }
    ensures { out.new ≡ put out.old at (take m (drop v (flat blocks.now (take n list.now)))) }
{
    let mut done: usize = 0;
    while done < m {
        let (from, part) = stretch(list, v + done, m - done);
        copy(out, at + done, blocks, from, part);
        done += part;
    }
}

// The k blocks from entry a on become n: free ones are put behind them, or the last of them are free.
fn resize(list: &mut [u16], home: &mut [u16], b: usize, m: usize, a: usize, k: usize, n: usize)
    requires { (a + k ≤ m) × (m + n ≤ b + k) × (m ≤ b) × (b ≤ 1024) × (b ≤ length list.old) × (b ≤ length home.old) × (homed home.old list.old b m ≡ true) }
    ensures homed { homed home.new list.new b (m + n - k) ≡ true }
    ensures resized { Resized list.old list.new m a k n }
{
    if k == n {
        return;
    }
    if k <= n {
        insert(list, home, b, m, a + k, n - k)
    } else {
        release(list, home, b, m, a + n, a + k)
    }
}

// The k blocks from entry a on become n, and the octets of src are written from their octet d on.
pub fn splice<S: Source>(
    list: &mut [u16],
    home: &mut [u16],
    blocks: &mut [u8],
    b: usize,
    m: usize,
    a: usize,
    k: usize,
    n: usize,
    d: usize,
    src: S,
)
    requires counts { (a + k ≤ m) × (m + n ≤ b + k) × (m ≤ b) × (b ≤ 1024) × (b ≤ length list.old) × (b ≤ length home.old) × (homed home.old list.old b m ≡ true) }
    requires room { (64 * b ≤ length blocks.old) × (d ≤ 64 * k) × (d + length (S.octets src) ≤ 64 * n) }
    ensures homed { homed home.new list.new b (m + n - k) ≡ true }
    ensures spliced { Spliced (flat blocks.old (take m list.old)) (flat blocks.new (take (m + n - k) list.new)) a k n d (S.octets src) }
{
    resize(list, home, b, m, a, k, n);
    write_at(list, blocks, b, m + n - k, 64 * a + d, src);
}
