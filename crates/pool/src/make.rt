// A new store.
ghost use Rattle.std.specs.Prelude.{◌≡◌, true, cond, ◌≤◌, length};
ghost use Rattle.octets.specs.Emit.{put};
ghost use Rattle.pool.specs.View.{tab, fits, new_words, Made};

// Kind and settings are set, and all counts are 0.
fn set_new(words: &mut [u64], kind: u64, n: u64, b: u64, r: u64, c: u64)
    requires { 1576 ≤ length words.old }
    ensures { words.new ≡ new_words words.old kind n b r c }
{
    words[5..40].fill(0);
    words[0] = kind;
    words[1] = n;
    words[2] = b;
    words[3] = r;
    words[4] = c;
}

// The first m blocks in their order, so that free blocks follow each other.
fn in_order(list: &mut [u16], m: usize)
    requires { (m ≤ 1024) × (m ≤ length list.old) }
    ensures { list.new ≡ put list.old 0 (tab (λ i. i) m) }
{
    for i in 0..m {
        list[i] = i as u16;
    }
}

// Whether settings (links n, blocks b, reserve r, cap c) and lent memory make a store; where they do, it is there.
#[tactic(auto, using(crate::proofs::Made::most_blocks), unfolding(crate::specs::View::fits))]
pub fn create(
    words: &mut [u64],
    times: &[f64],
    list: &mut [u16],
    home: &[u16],
    blocks: &[u8],
    kind: u64,
    n: u64,
    b: u64,
    r: u64,
    c: u64,
) -> bool
    ensures answer { result ≡ fits words.old times.now list.new home.now blocks.now n b r c }
    ensures words_set { words.new ≡ cond result (new_words words.old kind n b r c) words.old }
    ensures list_set { list.new ≡ cond result (put list.old 0 (tab (λ i. i) b)) list.old }
    ensures made { result ≡ true → Made words.new times.now list.new home.now blocks.now kind n b r c }
{
    if !tables::settings_allowed(n, b, r, c) || words.len() < 1576 || times.len() < 128 {
        return false;
    }
    let m = b as usize;
    if list.len() < m || home.len() < m || blocks.len() < 64 * m {
        return false;
    }
    set_new(words, kind, n, b, r, c);
    in_order(list, m);
    true
}
