// What a TPDU's octets say.
ghost use Rattle.std.specs.Prelude.{◌≡◌, ◌≤◌, length};
ghost use Rattle.octets.specs.Text.{pick};
ghost use Rattle.cotp.specs.Tpdu.{kind_of, name_of, numbered as is_numbered, fixed_len, head_of, seq_of};

use names::text::{AK, CC, CR, DC, DR, DT, EA, ED, ER, RJ};
use octets::read::{u32_of, wide};

#[derive(Clone, Copy, PartialEq, Eq)]
pub enum Kind {
    Cr,
    Cc,
    Dr,
    Dc,
    Dt,
    Ed,
    Ak,
    Ea,
    Rj,
    Er,
}

// The fixed part ends where the parameters begin.
#[derive(Clone, Copy)]
pub struct Head {
    pub li: usize,
    pub kind: Kind,
    pub extended: bool,
    pub fixed: usize,
}

// The type by the high half of the code octet.
#[tactic(auto, unfolding(crate::specs::Tpdu::kind_of))]
fn kind_of(high: u8) -> Option<Kind>
    ensures { result ≡ kind_of high }
{
    match high {
        0xE => Some(Kind::Cr),
        0xD => Some(Kind::Cc),
        0x8 => Some(Kind::Dr),
        0xC => Some(Kind::Dc),
        0xF => Some(Kind::Dt),
        0x1 => Some(Kind::Ed),
        0x6 => Some(Kind::Ak),
        0x2 => Some(Kind::Ea),
        0x5 => Some(Kind::Rj),
        0x7 => Some(Kind::Er),
        _ => None,
    }
}

impl Kind {
    // Its name, a text number.
    pub fn name(self) -> u32
        ensures { result ≡ name_of self }
    {
        match self {
            Kind::Cr => CR,
            Kind::Cc => CC,
            Kind::Dr => DR,
            Kind::Dc => DC,
            Kind::Dt => DT,
            Kind::Ed => ED,
            Kind::Ak => AK,
            Kind::Ea => EA,
            Kind::Rj => RJ,
            Kind::Er => ER,
        }
    }

    // The types that have sequence numbers.
    fn numbered(self) -> bool
        ensures { result ≡ is_numbered self }
    {
        matches!(self, Kind::Dt | Kind::Ed | Kind::Ak | Kind::Ea | Kind::Rj)
    }

    // The octets of the fixed part, LI included.
    fn fixed_len(self, extended: bool) -> usize
        ensures { result ≡ fixed_len self extended }
    {
        match self {
            Kind::Cr | Kind::Cc | Kind::Dr => 7,
            Kind::Dc => 6,
            Kind::Er => 5,
            Kind::Ak | Kind::Rj => by_format(extended, 10),
            Kind::Dt | Kind::Ed | Kind::Ea => by_format(extended, 8),
        }
    }
}

// A length that only the extended format has, and 5 for the normal one.
pub fn by_format(extended: bool, long: usize) -> usize
    ensures { result ≡ pick extended long 5 }
{
    if extended { long } else { 5 }
}

// LI may count past the end of the octets: then there are no parameters and no user data. An odd LI is the extended format, of
// the types that have one.
#[tactic(auto, unfolding(crate::specs::Tpdu::head_of))]
pub fn read(b: &[u8]) -> Option<Head>
    ensures { result ≡ head_of b.now }
{
    if b.len() < 4 {
        return None;
    }
    let li = wide(b[0]);
    if li == 0 || li == 255 {
        return None;
    }
    let kind = kind_of(b[1] / 16)?;
    let extended = kind.numbered() && li % 2 == 1;
    let fixed = kind.fixed_len(extended);
    if b.len() < fixed {
        return None;
    }
    Some(Head {
        li,
        kind,
        extended,
        fixed,
    })
}

// The sequence number: of 31 bits in the extended format, else of 7.
pub fn seq(b: &[u8], extended: bool) -> u32
    requires { pick extended 8 5 ≤ length b.now }
    ensures { result ≡ seq_of b.now extended }
{
    if extended {
        u32_of(b[4], b[5], b[6], b[7]) % 2147483648
    } else {
        (b[4] % 128) as u32
    }
}
