// The ledger of a store: the counts of all links' blocks, by value.
ghost use Rattle.std.specs.Prelude.{◌≡◌, true, ℕ, ◌+◌, ◌-◌, ◌≤◌, ◌<◌, length, get_or, set};
ghost use Rattle.octets.specs.Tests.{all};
ghost use Rattle.tables.specs.Tables.{links, settings_ok, link_at, used_of, counts, total, over};

#[derive(Clone, Copy)]
pub struct Ledger {
    pub counts: [u64; 16],
}

// The ledger that the words hold.
pub fn ledger_of(words: &[u64]) -> Ledger
    requires { 1576 ≤ length words.now }
    ensures { result.counts ≡ counts words.now }
{
    let mut c = [0u64; 16];
    c.copy_from_slice(&words[8..24]);
    Ledger { counts: c }
}

// The ledger with the count of link l changed to n.
pub fn recounted(mut g: Ledger, l: usize, n: u64) -> Ledger
    requires { l < 16 }
    ensures { result.counts ≡ set g.counts l n }
{
    g.counts[l] = n;
    g
}

// The words hold what this ledger has for link l.
pub fn set_count(words: &mut [u64], g: Ledger, l: usize)
    requires { (l < 16) × (1576 ≤ length words.old) }
    ensures { words.new ≡ set words.old (8 + l) (get_or g.counts l 0) }
{
    words[8 + l] = g.counts[l];
}

// The blocks of all links. Here and below the loop always has sixteen turns, so that it is unrolled.
#[tactic(auto, using(crate::proofs::Laws::loops))]
pub fn total_of(g: Ledger) -> u64
    requires { (l : ℕ) → l < 16 → get_or g.counts l 0 ≤ 65536 }
    ensures { result ≡ total g.counts }
{
    let mut sum: u64 = 0;
    for i in 0..16 {
        sum += g.counts[i];
    }
    sum
}

// What all links use above the reserve r.
#[tactic(auto, using(crate::proofs::Laws::loops))]
pub fn over_of(g: Ledger, r: u64) -> u64
    requires { (l : ℕ) → l < 16 → get_or g.counts l 0 ≤ 65536 }
    ensures { result ≡ over r g.counts }
{
    let mut sum: u64 = 0;
    for i in 0..16 {
        sum += g.counts[i].saturating_sub(r);
    }
    sum
}

// The blocks of all links of sound tables.
pub fn all_used(words: &[u64]) -> usize
    requires { (1576 ≤ length words.now) × (settings_ok words.now ≡ true) × (all (link_at words.now) 16 ≡ true) }
    ensures { result ≡ used_of words.now (links words.now) }
{
    total_of(ledger_of(words)) as usize
}
