// The tables of a store, and the test of them.
#![tactic(auto)]

ghost use Rattle.std.specs.Prelude.{◌≡◌, true, cond, ◌+◌, ◌*◌, ◌-◌, ◌≤◌, ◌<◌, length};
ghost use Rattle.tables.specs.Tables.{links, place_ok, places_ok, place_cost, costs, key_eq, key_new, keys_ok, allowed, settings_ok, link_ok, idle, link_at, used_of, tables_ok};
ghost use Rattle.octets.specs.Tests.{all};

use model::blocks_of;

pub mod ledger;

// Whether settings are allowed: links n, blocks b, reserve r, cap c.
#[tactic(auto, unfolding(crate::specs::Tables::allowed))]
pub fn settings_allowed(n: u64, b: u64, r: u64, c: u64) -> bool
    ensures { result ≡ allowed n b r c }
{
    matches!(n, 1..=16) && matches!(b, 1..=1024) && c <= b && r <= c && n * r <= b
}

#[tactic(auto, unfolding(crate::specs::Tables::settings_ok))]
fn settings_ok(words: &[u64]) -> bool
    requires { 1576 ≤ length words.now }
    ensures { result ≡ settings_ok words.now }
{
    settings_allowed(words[1], words[2], words[3], words[4])
}

// Whether two places have one key.
fn key_eq(words: &[u64], p: usize, q: usize) -> bool
    requires { (p < 128) × (q < 128) × (1576 ≤ length words.now) }
    ensures { result ≡ key_eq words.now p q }
{
    let (at, to) = (40 + 12 * p, 40 + 12 * q);
    words[at..at + 6] == words[to..to + 6]
}

// Whether the key of the i-th place from p on differs from those before it.
#[tactic(auto, using(crate::proofs::Laws::loops))]
fn key_new(words: &[u64], p: usize, i: usize) -> bool
    requires { (p + i < 128) × (1576 ≤ length words.now) }
    ensures { result ≡ key_new words.now p i }
{
    for j in 0..i {
        if key_eq(words, p + i, p + j) {
            return false;
        }
    }
    true
}

// Whether no key stands twice among the u places from p on.
#[tactic(auto, using(crate::proofs::Laws::loops))]
fn keys_ok(words: &[u64], p: usize, u: usize) -> bool
    requires { (p + u ≤ 128) × (1576 ≤ length words.now) }
    ensures { result ≡ keys_ok words.now p u }
{
    for i in 1..u {
        if !key_new(words, p, i) {
            return false;
        }
    }
    true
}

// Whether the block counts of place p are what its parts cost.
#[tactic(auto, unfolding(crate::specs::Tables::place_ok))]
fn place_ok(words: &[u64], p: usize) -> bool
    requires { (p < 128) × (1576 ≤ length words.now) }
    ensures { result ≡ place_ok words.now p }
{
    let at = 40 + 12 * p;
    words[at + 9] == blocks_of(words[at + 7]) && words[at + 10] == blocks_of(words[at + 8])
}

// The blocks of place p.
pub fn place_cost(words: &[u64], p: usize) -> u64
    requires { (p < 128) × (1576 ≤ length words.now) × (place_ok words.now p ≡ true) }
    ensures { (result ≡ place_cost words.now p) × (result ≤ 576460752303423490) }
{
    words[40 + 12 * p + 9] + words[40 + 12 * p + 10]
}

// The blocks of u places from p on.
#[tactic(auto, using(crate::proofs::Laws::loops))]
pub fn cost(words: &[u64], p: usize, u: usize) -> u64
    requires { (p + u ≤ 128) × (u ≤ 8) × (1576 ≤ length words.now) × (places_ok words.now p u ≡ true) }
    ensures { result ≡ costs words.now p u }
{
    let mut sum: u64 = 0;
    for j in 0..u {
        sum += place_cost(words, p + j);
    }
    sum
}

// The blocks of u places from p on, where their block counts are right.
#[tactic(auto, using(crate::proofs::Laws::loops))]
fn checked_cost(words: &[u64], p: usize, u: usize) -> Option<u64>
    requires { (p + u ≤ 128) × (u ≤ 8) × (1576 ≤ length words.now) }
    ensures { result ≡ cond (places_ok words.now p u) (Some (costs words.now p u)) None }
{
    let mut blocks: u64 = 0;
    for j in 0..u {
        if !place_ok(words, p + j) {
            return None;
        }
        blocks += place_cost(words, p + j);
    }
    Some(blocks)
}

// Whether link l is sound.
#[tactic(auto, unfolding(crate::specs::Tables::link_ok))]
fn link_ok(words: &[u64], l: usize) -> bool
    requires { (l < 16) × (1576 ≤ length words.now) }
    ensures { result ≡ link_ok words.now l }
{
    let u = words[24 + l];
    let k = words[8 + l];
    if 8 < u || words[4] < k {
        return false;
    }
    let v = u as usize;
    checked_cost(words, 8 * l, v) == Some(k) && keys_ok(words, 8 * l, v)
}

// Whether there is nothing at the place for link l. Both are read before they are compared, so that several are compared at
// once.
#[tactic(auto, unfolding(crate::specs::Tables::idle))]
fn idle(words: &[u64], l: usize) -> bool
    requires { (l < 16) × (1576 ≤ length words.now) }
    ensures { result ≡ idle words.now l }
{
    (words[24 + l] == 0) & (words[8 + l] == 0)
}

// The same at four places, from l on.
#[tactic(auto, unfolding(octets::specs::Tests::all))]
fn four_idle(words: &[u64], l: usize) -> bool
    requires { (l + 4 ≤ 16) × (1576 ≤ length words.now) }
    ensures { result ≡ all (λ i. idle words.now (l + i)) 4 }
{
    idle(words, l) & idle(words, l + 1) & idle(words, l + 2) & idle(words, l + 3)
}

// Whether there is nothing where there are no links, from n on.
#[tactic(auto, using(crate::proofs::Laws::loops))]
fn past_ok(words: &[u64], n: usize) -> bool
    requires { (n ≤ 16) × (1576 ≤ length words.now) }
    ensures { result ≡ all (λ i. idle words.now (n + i)) (16 - n) }
{
    // No `for`: from any n, by fours.
    let mut l = n;
    while l + 4 <= 16 {
        if !four_idle(words, l) {
            return false;
        }
        l += 4;
    }
    for i in l..16 {
        if !idle(words, i) {
            return false;
        }
    }
    true
}

// The blocks of the first n links, by the counts.
#[tactic(auto, using(crate::proofs::Laws::loops))]
pub fn used(words: &[u64], n: usize) -> usize
    requires { (n ≤ 16) × (1576 ≤ length words.now) × (settings_ok words.now ≡ true) × (all (link_at words.now) 16 ≡ true) }
    ensures { result ≡ used_of words.now n }
{
    let mut sum: usize = 0;
    for l in 0..n {
        sum += words[8 + l] as usize;
    }
    sum
}

// The blocks that all links have in use, where the tables are sound.
#[tactic(auto, using(crate::proofs::Laws::settings, crate::proofs::Laws::loops))]
pub fn checked_used(words: &[u64]) -> Option<usize>
    ensures { result ≡ cond (tables_ok words.now) (Some (used_of words.now (links words.now))) None }
{
    if words.len() < 1576 || !settings_ok(words) {
        return None;
    }
    let n = words[1] as usize;
    let r = words[3];
    let mut used: usize = 0;
    let mut over: u64 = 0;
    for l in 0..n {
        if !link_ok(words, l) {
            return None;
        }
        used += words[8 + l] as usize;
        over += words[8 + l].saturating_sub(r);
    }
    if !past_ok(words, n) || words[2] - words[1] * r < over {
        return None;
    }
    Some(used)
}
