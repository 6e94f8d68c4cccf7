// The turns of a link's units where a unit grows at its end: a piece is held, or ends the unit.
#![tactic(auto)]

ghost use Rattle.std.specs.Prelude.{◌≡◌, true, cond, [], ◌+◌, ◌*◌, ◌≤◌, ◌<◌, eqb, ltb, length, get_or, set, is_some, IfSome};
ghost use Rattle.octets.specs.Emit.{put};
ghost use Rattle.tables.specs.Tables.{links, blocks_in, reserve, cap, units, word};
ghost use Rattle.pool.specs.View.{sound, pend, blank, Found, Finds, SameSettings, removed, answer};
ghost use Rattle.pool.specs.Shares.{room_for};
ghost use Rattle.turns.specs.Turns.{whole, held, found_at};

use octets::emit::copy;
use pool::link::{Full, add, room};
use pool::unit::{mark, read, remove, splice};

// How many octets are kept of unit j of link l: of one that is there its body, or none.
fn kept(
    words: &[u64],
    times: &[f64],
    list: &[u16],
    home: &[u16],
    blocks: &[u8],
    l: usize,
    j: Option<usize>,
    keep: bool,
) -> usize
    requires is_sound { sound words.now times.now list.now home.now blocks.now ≡ true }
    requires in_range { (l < links words.now) × IfSome j (λ i. i < units words.now l) }
    ensures { (result ≡ length (cond keep (get_or (get_or (pend words.now times.now list.now blocks.now) l []) (found_at (get_or (pend words.now times.now list.now blocks.now) l []) j) blank).body [])) × (result ≤ 65536) }
{
    match j {
        Some(j) if keep => words[40 + 12 * (8 * l + j) + 7] as usize,
        _ => 0,
    }
}

// A piece is put behind what is kept of unit j of link l.
fn hold_more(
    words: &mut [u64],
    times: &mut [f64],
    list: &mut [u16],
    home: &mut [u16],
    blocks: &mut [u8],
    l: usize,
    j: usize,
    keep: bool,
    note: u64,
    at: f64,
    piece: &[u8],
) -> Result<(), Full>
    requires is_sound { sound words.old times.old list.old home.old blocks.old ≡ true }
    requires in_range { (l < links words.old) × (j < units words.old l) × (length piece.now ≤ 65535) }
    ensures judged { answer result ≡ room_for (links words.old) (blocks_in words.old) (reserve words.old) (cap words.old) (pend words.old times.old list.old blocks.old) l (held (get_or (pend words.old times.old list.old blocks.old) l []) j (get_or (get_or (pend words.old times.old list.old blocks.old) l []) j blank).key keep note at piece.now) }
    ensures stays_sound { sound words.new times.new list.new home.new blocks.new ≡ true }
    ensures pending { pend words.new times.new list.new blocks.new ≡ cond (eqb (answer result) 2) (set (pend words.old times.old list.old blocks.old) l (held (get_or (pend words.old times.old list.old blocks.old) l []) j (get_or (get_or (pend words.old times.old list.old blocks.old) l []) j blank).key keep note at piece.now)) (pend words.old times.old list.old blocks.old) }
    ensures same_settings { SameSettings words.old words.new }
{
    let d = kept(words, times, list, home, blocks, l, Some(j), keep);
    let k = words[40 + 12 * (8 * l + j) + 9];
    room(words, l, 0, k, ((d + piece.len() + 63) / 64) as u64)?;
    splice(words, times, list, home, blocks, l, j, 0, d, piece);
    mark(words, times, list, home, blocks, l, j, note, at);
    Ok(())
}

// A piece is the body of a new unit of link l.
fn hold_new(
    words: &mut [u64],
    times: &mut [f64],
    list: &mut [u16],
    home: &mut [u16],
    blocks: &mut [u8],
    l: usize,
    key: &[u64],
    note: u64,
    at: f64,
    piece: &[u8],
) -> Result<(), Full>
    requires is_sound { sound words.old times.old list.old home.old blocks.old ≡ true }
    requires in_range { (l < links words.old) × (length key.now ≡ 6) × (length piece.now ≤ 65535) }
    requires found { Found (get_or (pend words.old times.old list.old blocks.old) l []) key.now (units words.old l) }
    ensures judged { answer result ≡ room_for (links words.old) (blocks_in words.old) (reserve words.old) (cap words.old) (pend words.old times.old list.old blocks.old) l (held (get_or (pend words.old times.old list.old blocks.old) l []) (units words.old l) key.now true note at piece.now) }
    ensures stays_sound { sound words.new times.new list.new home.new blocks.new ≡ true }
    ensures pending { pend words.new times.new list.new blocks.new ≡ cond (eqb (answer result) 2) (set (pend words.old times.old list.old blocks.old) l (held (get_or (pend words.old times.old list.old blocks.old) l []) (units words.old l) key.now true note at piece.now)) (pend words.old times.old list.old blocks.old) }
    ensures same_settings { SameSettings words.old words.new }
{
    let u = words[24 + l] as usize;
    room(words, l, 1, 0, ((piece.len() + 63) / 64) as u64)?;
    add(words, times, list, home, blocks, l, key, note, at);
    splice(words, times, list, home, blocks, l, u, 0, 0, piece);
    Ok(())
}

// A piece is put behind what is kept of unit j of link l, or is a new one where none was found: the answer is 2, or the refusal,
// which leaves the units as they are.
pub fn hold(
    words: &mut [u64],
    times: &mut [f64],
    list: &mut [u16],
    home: &mut [u16],
    blocks: &mut [u8],
    l: usize,
    j: Option<usize>,
    key: &[u64],
    keep: bool,
    note: u64,
    at: f64,
    piece: &[u8],
) -> Result<(), Full>
    requires is_sound { sound words.old times.old list.old home.old blocks.old ≡ true }
    requires in_range { (l < links words.old) × (length key.now ≡ 6) × (length piece.now ≤ 65535) }
    requires found { Finds (get_or (pend words.old times.old list.old blocks.old) l []) key.now j }
    ensures judged { answer result ≡ room_for (links words.old) (blocks_in words.old) (reserve words.old) (cap words.old) (pend words.old times.old list.old blocks.old) l (held (get_or (pend words.old times.old list.old blocks.old) l []) (found_at (get_or (pend words.old times.old list.old blocks.old) l []) j) key.now keep note at piece.now) }
    ensures stays_sound { sound words.new times.new list.new home.new blocks.new ≡ true }
    ensures pending { pend words.new times.new list.new blocks.new ≡ cond (eqb (answer result) 2) (set (pend words.old times.old list.old blocks.old) l (held (get_or (pend words.old times.old list.old blocks.old) l []) (found_at (get_or (pend words.old times.old list.old blocks.old) l []) j) key.now keep note at piece.now)) (pend words.old times.old list.old blocks.old) }
    ensures same_settings { SameSettings words.old words.new }
{
    match j {
        Some(j) => hold_more(
            words, times, list, home, blocks, l, j, keep, note, at, piece,
        ),
        None => hold_new(words, times, list, home, blocks, l, key, note, at, piece),
    }
}

// What is kept of unit j of link l, and a piece behind it, is written from the beginning of out on, and the unit is gone: the
// answer is how many octets that are, or none where out is too short, which leaves units and output as they are.
pub fn finish(
    words: &mut [u64],
    times: &mut [f64],
    list: &mut [u16],
    home: &mut [u16],
    blocks: &[u8],
    l: usize,
    j: Option<usize>,
    keep: bool,
    piece: &[u8],
    out: &mut [u8],
) -> Option<usize>
    requires is_sound { sound words.old times.old list.old home.old blocks.now ≡ true }
    requires in_range { (l < links words.old) × IfSome j (λ i. i < units words.old l) × (length piece.now ≤ 65535) }
    ensures judged { result ≡ cond (ltb (length out.old) (length (whole (get_or (pend words.old times.old list.old blocks.now) l []) (found_at (get_or (pend words.old times.old list.old blocks.now) l []) j) keep piece.now))) None (Some (length (whole (get_or (pend words.old times.old list.old blocks.now) l []) (found_at (get_or (pend words.old times.old list.old blocks.now) l []) j) keep piece.now))) }
    ensures finished { out.new ≡ cond (is_some result) (put out.old 0 (whole (get_or (pend words.old times.old list.old blocks.now) l []) (found_at (get_or (pend words.old times.old list.old blocks.now) l []) j) keep piece.now)) out.old }
    ensures stays_sound { sound words.new times.new list.new home.new blocks.now ≡ true }
    ensures pending { pend words.new times.new list.new blocks.now ≡ cond (is_some result) (removed (pend words.old times.old list.old blocks.now) l (found_at (get_or (pend words.old times.old list.old blocks.now) l []) j)) (pend words.old times.old list.old blocks.now) }
    ensures same_settings { SameSettings words.old words.new }
{
    let d = kept(words, times, list, home, blocks, l, j, keep);
    let n = d + piece.len();
    if out.len() < n {
        return None;
    }
    if let Some(j) = j {
        if keep {
            read(words, times, list, home, blocks, l, j, 0, out, 0);
        }
        remove(words, times, list, home, blocks, l, j);
    }
    copy(out, d, piece, 0, piece.len());
    Some(n)
}
