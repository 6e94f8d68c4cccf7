// A unit's place, by value: twelve words of the tables, of which one is to spare, and a time.
ghost use Rattle.std.specs.Prelude.{◌≡◌, [], ◌∷◌, ◌++◌, ◌+◌, ◌*◌, ◌≤◌, ◌<◌, length, get_or, set, take, drop};
ghost use Rattle.std.specs.Float.{nan};
ghost use Rattle.octets.specs.Emit.{put};
ghost use Rattle.tables.specs.Tables.{word};
ghost use Rattle.pool.specs.View.{tab};

use octets::emit::copy;

// Body and top are lengths in octets.
#[derive(Clone, Copy)]
pub struct Place {
    pub key: [u64; 6],
    pub note: u64,
    pub body: u64,
    pub top: u64,
    pub bodyblocks: u64,
    pub topblocks: u64,
    pub time: f64,
}

// Six words from index at on.
fn six(s: &[u64], at: usize) -> [u64; 6]
    requires { at + 6 ≤ length s.now }
    ensures { result ≡ take 6 (drop at s.now) }
{
    let mut k = [0u64; 6];
    k.copy_from_slice(&s[at..at + 6]);
    k
}

// Place p of the tables.
pub fn place_at(words: &[u64], times: &[f64], p: usize) -> Place
    requires { (p < 128) × (1576 ≤ length words.now) × (128 ≤ length times.now) }
    ensures key_read { result.key ≡ tab (word words.now p) 6 }
    ensures note_read { result.note ≡ word words.now p 6 }
    ensures body_read { result.body ≡ word words.now p 7 }
    ensures top_read { result.top ≡ word words.now p 8 }
    ensures bodyblocks_read { result.bodyblocks ≡ word words.now p 9 }
    ensures topblocks_read { result.topblocks ≡ word words.now p 10 }
    ensures time_read { result.time ≡ get_or times.now p nan }
{
    let at = 40 + 12 * p;
    Place {
        key: six(words, at),
        note: words[at + 6],
        body: words[at + 7],
        top: words[at + 8],
        bodyblocks: words[at + 9],
        topblocks: words[at + 10],
        time: times[p],
    }
}

// A place with this key, note and time, and no octets.
pub fn empty_place(key: &[u64], note: u64, time: f64) -> Place
    requires { length key.now ≡ 6 }
    ensures key_given { result.key ≡ key.now }
    ensures note_given { (result.note ≡ note) × (result.body ≡ 0) × (result.top ≡ 0) × (result.bodyblocks ≡ 0) × (result.topblocks ≡ 0) }
    ensures time_given { result.time ≡ time }
{
    Place {
        key: six(key, 0),
        note,
        body: 0,
        top: 0,
        bodyblocks: 0,
        topblocks: 0,
        time,
    }
}

// Place p of the tables is q.
pub fn set_place(words: &mut [u64], times: &mut [f64], p: usize, q: Place)
    requires { (p < 128) × (1576 ≤ length words.old) × (128 ≤ length times.old) }
    ensures words_put { words.new ≡ put words.old (40 + 12 * p) (q.key ++ (q.note ∷ q.body ∷ q.top ∷ q.bodyblocks ∷ q.topblocks ∷ [])) }
    ensures time_set { times.new ≡ set times.old p q.time }
{
    let at = 40 + 12 * p;
    copy(words, at, &q.key, 0, 6);
    words[at + 6] = q.note;
    words[at + 7] = q.body;
    words[at + 8] = q.top;
    words[at + 9] = q.bodyblocks;
    words[at + 10] = q.topblocks;
    times[p] = q.time;
}
