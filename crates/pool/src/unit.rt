// Operations on the units of a sound store.
ghost use Rattle.std.specs.Prelude.{◌≡◌, true, ◌+◌, ◌*◌, ◌-◌, ◌≤◌, ◌<◌, length, get_or};
ghost use Rattle.octets.specs.Emit.{put};
ghost use Rattle.model.specs.Cost.{blocks as blocksFor};
ghost use Rattle.tables.specs.Tables.{links, units, word, count, place_cost, tables_ok};
ghost use Rattle.pool.specs.View.{sound, pend, start_of, part_at, Room, SameSettings, spliced, written, splice_words, removed, less_words, less_times, marked, unit_of, part_of};

use crate::place::{place_at, set_place};
use chain::source::Source;
use tables::ledger::{ledger_of, recounted, set_count};

// The block from which on place j of link l stands.
pub fn start_of(words: &[u64], l: usize, j: usize) -> usize
    requires { (tables_ok words.now ≡ true) × (l < links words.now) × (j ≤ units words.now l) }
    ensures { (result ≡ start_of words.now l j) × (result ≤ 1024) }
{
    tables::used(words, l) + tables::cost(words, 8 * l, j) as usize
}

// The block from which on a part of place p stands, whose blocks stand from s on.
fn part_start(words: &[u64], p: usize, part: usize, s: usize) -> usize
    requires { (p < 128) × (1576 ≤ length words.now) × (s ≤ 1024) × (word words.now p 9 ≤ 1024) }
    ensures { result ≡ s + part_at words.now p part }
{
    if part == 0 {
        s
    } else {
        s + words[40 + 12 * p + 9] as usize
    }
}

// A part of place j of link l is x octets long, and n blocks.
fn set_part(words: &mut [u64], l: usize, j: usize, part: usize, x: u64, n: u64)
    requires { (l < 16) × (j < 8) × (part < 2) × (1576 ≤ length words.old) × (word words.old (8 * l + j) (9 + part) ≤ count words.old l) × (count words.old l + n ≤ 65536) }
    ensures { words.new ≡ splice_words words.old l j part x n }
{
    let at = 40 + 12 * (8 * l + j);
    let k = words[at + (9 + part)];
    let c = words[8 + l];
    words[at + (7 + part)] = x;
    words[at + (9 + part)] = n;
    let g = recounted(ledger_of(words), l, c + n - k);
    set_count(words, g, l);
}

// A part of unit j of link l from its octet d on becomes src.
#[tactic(auto, using(crate::proofs::Good::good, crate::proofs::Near::ready))]
pub fn splice<S: Source>(
    words: &mut [u64],
    times: &[f64],
    list: &mut [u16],
    home: &mut [u16],
    blocks: &mut [u8],
    l: usize,
    j: usize,
    part: usize,
    d: usize,
    src: S,
)
    requires is_sound { sound words.old times.now list.old home.old blocks.old ≡ true }
    requires in_range { (l < links words.old) × (j < units words.old l) × (part < 2) × (d ≤ word words.old (8 * l + j) (7 + part)) × (length (S.octets src) ≤ 65535) }
    requires room { Room words.old l (word words.old (8 * l + j) (9 + part)) (blocksFor (d + length (S.octets src))) }
    ensures stays_sound { sound words.new times.now list.new home.new blocks.new ≡ true }
    ensures pending { pend words.new times.now list.new blocks.new ≡ spliced (pend words.old times.now list.old blocks.old) l j part d (S.octets src) }
    ensures same_settings { SameSettings words.old words.new }
{
    let b = words[2] as usize;
    let m = tables::ledger::all_used(words);
    let s = start_of(words, l, j);
    let a = part_start(words, 8 * l + j, part, s);
    let k = words[40 + 12 * (8 * l + j) + (9 + part)] as usize;
    let x = d + src.len();
    let n = (x + 63) / 64;
    chain::splice(list, home, blocks, b, m, a, k, n, d, src);
    set_part(words, l, j, part, x as u64, n as u64);
}

// A part of unit j of link l has src from its octet o on.
#[tactic(auto, using(crate::proofs::Good::good, crate::proofs::Near::ready))]
pub fn write(
    words: &[u64],
    times: &[f64],
    list: &[u16],
    home: &[u16],
    blocks: &mut [u8],
    l: usize,
    j: usize,
    part: usize,
    o: usize,
    src: &[u8],
)
    requires is_sound { sound words.now times.now list.now home.now blocks.old ≡ true }
    requires in_range { (l < links words.now) × (j < units words.now l) × (part < 2) × (o + length src.now ≤ word words.now (8 * l + j) (7 + part)) }
    ensures stays_sound { sound words.now times.now list.now home.now blocks.new ≡ true }
    ensures pending { pend words.now times.now list.now blocks.new ≡ written (pend words.now times.now list.now blocks.old) l j part o src.now }
{
    let b = words[2] as usize;
    let m = tables::ledger::all_used(words);
    let s = start_of(words, l, j);
    let a = part_start(words, 8 * l + j, part, s);
    chain::write_at(list, blocks, b, m, 64 * a + o, src);
}

// Place j of link l, of k blocks, is gone from the tables.
fn take_place(words: &mut [u64], times: &mut [f64], l: usize, j: usize, k: u64)
    requires { (l < 16) × (j < units words.old l) × (units words.old l ≤ 8) × (1576 ≤ length words.old) × (128 ≤ length times.old) × (k ≡ place_cost words.old (8 * l + j)) × (k ≤ count words.old l) }
    ensures { (words.new ≡ less_words words.old l j) × (times.new ≡ less_times words.old times.old l j) }
{
    let u = words[24 + l] as usize;
    let c = words[8 + l];
    shift::down(words, 40 + 12 * (8 * l + j), 12, 40 + 12 * (8 * l + u));
    shift::down(times, 8 * l + j, 1, 8 * l + u);
    words[24 + l] = (u - 1) as u64;
    let g = recounted(ledger_of(words), l, c - k);
    set_count(words, g, l);
}

// Unit j of link l is taken out.
#[tactic(auto, using(crate::proofs::Good::good, crate::proofs::Near::ready))]
pub fn remove(
    words: &mut [u64],
    times: &mut [f64],
    list: &mut [u16],
    home: &mut [u16],
    blocks: &[u8],
    l: usize,
    j: usize,
)
    requires is_sound { sound words.old times.old list.old home.old blocks.now ≡ true }
    requires in_range { (l < links words.old) × (j < units words.old l) }
    ensures stays_sound { sound words.new times.new list.new home.new blocks.now ≡ true }
    ensures pending { pend words.new times.new list.new blocks.now ≡ removed (pend words.old times.old list.old blocks.now) l j }
    ensures same_settings { SameSettings words.old words.new }
    ensures counted { units words.new l ≡ units words.old l - 1 }
{
    let b = words[2] as usize;
    let m = tables::ledger::all_used(words);
    let s = start_of(words, l, j);
    let k = tables::place_cost(words, 8 * l + j);
    chain::release(list, home, b, m, s, s + k as usize);
    take_place(words, times, l, j, k);
}

// Unit j of link l gets a note and a time.
#[tactic(auto, using(crate::proofs::Good::good, crate::proofs::Near::ready))]
pub fn mark(
    words: &mut [u64],
    times: &mut [f64],
    list: &[u16],
    home: &[u16],
    blocks: &[u8],
    l: usize,
    j: usize,
    note: u64,
    at: f64,
)
    requires is_sound { sound words.old times.old list.now home.now blocks.now ≡ true }
    requires in_range { (l < links words.old) × (j < units words.old l) }
    ensures stays_sound { sound words.new times.new list.now home.now blocks.now ≡ true }
    ensures pending { pend words.new times.new list.now blocks.now ≡ marked (pend words.old times.old list.now blocks.now) l j note at }
    ensures same_settings { SameSettings words.old words.new }
{
    let mut q = place_at(words, times, 8 * l + j);
    q.note = note;
    q.time = at;
    set_place(words, times, 8 * l + j, q);
}

// A part of unit j of link l is written into out from index at on; its length.
#[tactic(auto, using(crate::proofs::Good::good, crate::proofs::Near::ready))]
pub fn read(
    words: &[u64],
    times: &[f64],
    list: &[u16],
    home: &[u16],
    blocks: &[u8],
    l: usize,
    j: usize,
    part: usize,
    out: &mut [u8],
    at: usize,
) -> usize
    requires is_sound { sound words.now times.now list.now home.now blocks.now ≡ true }
    requires in_range { (l < links words.now) × (j < units words.now l) × (part < 2) × (at + word words.now (8 * l + j) (7 + part) ≤ length out.old) }
    ensures length_read { result ≡ length (part_of part (unit_of (pend words.now times.now list.now blocks.now) l j)) }
    ensures copied { out.new ≡ put out.old at (part_of part (unit_of (pend words.now times.now list.now blocks.now) l j)) }
{
    let b = words[2] as usize;
    let m = tables::ledger::all_used(words);
    let s = start_of(words, l, j);
    let a = part_start(words, 8 * l + j, part, s);
    let d = words[40 + 12 * (8 * l + j) + (7 + part)] as usize;
    chain::read_at(list, blocks, b, m, 64 * a, out, at, d);
    d
}
