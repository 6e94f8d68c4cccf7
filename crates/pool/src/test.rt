// The soundness test.
ghost use Rattle.std.specs.Prelude.{◌≡◌};
ghost use Rattle.pool.specs.View.{sound};
ghost use Rattle.pool.specs.Kinds.{sound_of, any_unit};

// Whether a store is sound, whatever is lent, but for its kind.
fn base_ok(words: &[u64], times: &[f64], list: &[u16], home: &[u16], blocks: &[u8]) -> bool
    ensures { result ≡ sound words.now times.now list.now home.now blocks.now }
{
    let Some(m) = tables::checked_used(words) else {
        return false;
    };
    let b = words[2] as usize;
    128 <= times.len()
        && b <= list.len()
        && b <= home.len()
        && 64 * b <= blocks.len()
        && chain::homed_ok(list, home, b, m)
}

// Whether a store is a sound one of this kind, whatever is lent, but for the kind's own test of its units.
pub fn store_ok(
    words: &[u64],
    times: &[f64],
    list: &[u16],
    home: &[u16],
    blocks: &[u8],
    kind: u64,
) -> bool
    ensures { result ≡ sound_of kind any_unit words.now times.now list.now home.now blocks.now }
{
    base_ok(words, times, list, home, blocks) && words[0] == kind
}
