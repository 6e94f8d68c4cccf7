// Operations on the units of a link of a sound store.
ghost use Rattle.std.specs.Prelude.{◌≡◌, true, [], ◌+◌, ◌*◌, ◌-◌, ◌≤◌, ◌<◌, length, get_or};
ghost use Rattle.tables.specs.Tables.{links, count, units, tables_ok};
ghost use Rattle.pool.specs.View.{sound, pend, expired, emptied, key_is, Found, Finds, number, answer, refusal, added, SameSettings};

use crate::place::{empty_place, place_at, set_place};
use crate::unit::remove;
use tables::ledger::{ledger_of, over_of, recounted};

// What there is no room for: a unit more, the link's blocks within the cap, or its blocks within the common rest.
#[derive(Clone, Copy, PartialEq, Eq)]
pub enum Full {
    Places,
    Cap,
    Common,
}

// The answer's number.
impl From<Full> for u64 {
    ghost from_gives = { λ f n. n ≡ number f };

    fn from(full: Full) -> u64 {
        match full {
            Full::Places => 11,
            Full::Cap => 12,
            Full::Common => 13,
        }
    }
}

// The units of link l that are not fresh are taken out.
pub fn expire(
    words: &mut [u64],
    times: &mut [f64],
    list: &mut [u16],
    home: &mut [u16],
    blocks: &[u8],
    l: usize,
    at: f64,
)
    requires is_sound { sound words.old times.old list.old home.old blocks.now ≡ true }
    requires in_range { l < links words.old }
    ensures stays_sound { sound words.new times.new list.new home.new blocks.now ≡ true }
    ensures pending { pend words.new times.new list.new blocks.now ≡ expired (pend words.old times.old list.old blocks.now) l at }
    ensures same_settings { SameSettings words.old words.new }
{
    // No `for`: where a unit goes, the next one comes to its place.
    let mut j: usize = 0;
    let mut u = words[24 + l] as usize;
    while j < u {
        let q = place_at(words, times, 8 * l + j);
        if clock::fresh(at, q.time) {
            j += 1;
        } else {
            remove(words, times, list, home, blocks, l, j);
            u -= 1;
        }
    }
}

// Every unit of link l is taken out.
pub fn empty(
    words: &mut [u64],
    times: &mut [f64],
    list: &mut [u16],
    home: &mut [u16],
    blocks: &[u8],
    l: usize,
)
    requires is_sound { sound words.old times.old list.old home.old blocks.now ≡ true }
    requires in_range { l < links words.old }
    ensures stays_sound { sound words.new times.new list.new home.new blocks.now ≡ true }
    ensures pending { pend words.new times.new list.new blocks.now ≡ emptied (pend words.old times.old list.old blocks.now) l }
    ensures same_settings { SameSettings words.old words.new }
{
    for u in (0..words[24 + l] as usize).rev() {
        remove(words, times, list, home, blocks, l, u);
    }
}

// Whether place p has this key.
fn key_at(words: &[u64], p: usize, key: &[u64]) -> bool
    requires { (p < 128) × (1576 ≤ length words.now) × (length key.now ≡ 6) }
    ensures { result ≡ key_is words.now p key.now }
{
    let at = 40 + 12 * p;
    &words[at..at + 6] == key
}

// The unit of link l that has this key.
pub fn find(
    words: &[u64],
    times: &[f64],
    list: &[u16],
    home: &[u16],
    blocks: &[u8],
    l: usize,
    key: &[u64],
) -> Option<usize>
    requires is_sound { sound words.now times.now list.now home.now blocks.now ≡ true }
    requires in_range { (l < links words.now) × (length key.now ≡ 6) }
    ensures { Finds (get_or (pend words.now times.now list.now blocks.now) l []) key.now result }
{
    for j in 0..words[24 + l] as usize {
        if key_at(words, 8 * l + j, key) {
            return Some(j);
        }
    }
    None
}

// Whether link l may have u units more, and n blocks in the place of k.
#[tactic(auto, using(crate::proofs::Near::near, tables::proofs::Laws::tables, tables::proofs::Laws::settings))]
pub fn room(words: &[u64], l: usize, u: u64, k: u64, n: u64) -> Result<(), Full>
    requires { (tables_ok words.now ≡ true) × (l < links words.now) × (u ≤ 1) × (k ≤ count words.now l) × (n ≤ 65536) }
    ensures { answer result ≡ refusal words.now l u k n }
{
    if 8 < words[24 + l] + u {
        return Err(Full::Places);
    }
    // What is there already meets the shares.
    if n <= k {
        return Ok(());
    }
    let before = words[8 + l];
    let after = before + n - k;
    if words[4] < after {
        return Err(Full::Cap);
    }
    let r = words[3];
    // So does what is within the reserve.
    if after <= r {
        return Ok(());
    }
    let e = over_of(recounted(ledger_of(words), l, after), r);
    if words[2] - words[1] * r < e {
        return Err(Full::Common);
    }
    Ok(())
}

// A unit with this key, note and time, and no octets, is the last of link l.
pub fn add(
    words: &mut [u64],
    times: &mut [f64],
    list: &[u16],
    home: &[u16],
    blocks: &[u8],
    l: usize,
    key: &[u64],
    note: u64,
    at: f64,
)
    requires is_sound { sound words.old times.old list.now home.now blocks.now ≡ true }
    requires in_range { (l < links words.old) × (units words.old l < 8) × (length key.now ≡ 6) }
    requires found { Found (get_or (pend words.old times.old list.now blocks.now) l []) key.now (units words.old l) }
    ensures stays_sound { sound words.new times.new list.now home.now blocks.now ≡ true }
    ensures pending { pend words.new times.new list.now blocks.now ≡ added (pend words.old times.old list.now blocks.now) l key.now note at }
    ensures same_settings { SameSettings words.old words.new }
    ensures counted { units words.new l ≡ units words.old l + 1 }
{
    let u = words[24 + l] as usize;
    set_place(words, times, 8 * l + u, empty_place(key, note, at));
    words[24 + l] = (u + 1) as u64;
}
