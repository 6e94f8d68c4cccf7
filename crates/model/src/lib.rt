// The model of the store is in specs/, and what is proved of it in proofs/. Of its code there is the cost of a part.
#![tactic(auto)]

ghost use Rattle.std.specs.Prelude.{◌≡◌};
ghost use Rattle.model.specs.Cost.{blocks};

// How many blocks of 64 octets a part of n octets fills; a sum of n and 63 could wrap.
pub fn blocks_of(n: u64) -> u64
    ensures { result ≡ blocks n }
{
    n / 64 + (n % 64 + 63) / 64
}
