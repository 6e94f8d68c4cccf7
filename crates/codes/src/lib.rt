// The text number of each code that the Rust names: 0 where it names none, since a cell carries the number.
#![tactic(auto, unfolding(crate::specs::Codes::text_in, crate::specs::Codes::name_in, crate::specs::Codes::error_subcodes, crate::specs::Codes::atsc_classes, crate::specs::Codes::clear_causes, crate::specs::Codes::clnp_options, crate::specs::Codes::cotp_params, crate::specs::Codes::diagnostics, crate::specs::Codes::disconnect_reasons, crate::specs::Codes::esis_options, crate::specs::Codes::idrp_attributes, crate::specs::Codes::idrp_errors, crate::specs::Codes::idrp_types, crate::specs::Codes::open_errors, crate::specs::Codes::refresh_errors, crate::specs::Codes::reject_causes, crate::specs::Codes::reset_causes, crate::specs::Codes::restart_causes, crate::specs::Codes::security_classes, crate::specs::Codes::subnets, crate::specs::Codes::traffic_types, crate::specs::Codes::update_errors, names::specs::Texts::number_of, names::specs::Texts::texts, names::specs::Place::place_from, names::specs::Place::same))]

ghost use Rattle.std.specs.Prelude.{◌≡◌, []};
ghost use Rattle.names.specs.Ascii.{octets};
ghost use Rattle.codes.specs.Codes.{text_in, error_subcodes, clear_causes, reset_causes, restart_causes, diagnostics, esis_options, idrp_attributes, idrp_types, idrp_errors, clnp_options, traffic_types, atsc_classes, subnets, security_classes, disconnect_reasons, reject_causes, cotp_params, open_errors, update_errors, refresh_errors};
ghost use Rattle.codes.specs.Entry.{lift};

// The four of X.25 are tables, which `parse_x25` reads faster than matches (docs/SPEED.md).

// An entry of a table of small numbers: 0 stands for other, and any other for that many on from base.
fn lifted(other: u16, base: u16, t: u8) -> u32
    ensures { result ≡ lift other base t }
{
    if t == 0 {
        return other as u32;
    }
    base as u32 + t as u32
}

pub fn x25_clear_cause(c: u8) -> u32
    ensures { result ≡ text_in clear_causes [] c }
{
    if c < 58 {
        let table =
            b"\x01\x02\x00\x03\x00\x04\x00\x00\x00\x05\x00\x00\x00\x06\x00\x00\x00\x00\x00\x07\x00\x08\x00\x00\x00\x09\x00\x00\x00\x00\x00\x00\x00\x0a\x00\x00\x00\x00\x00\x00\x00\x0b\x00\x00\x00\x00\x00\x00\x00\x00\x00\x00\x00\x00\x00\x00\x00\x0c";
        return lifted(0, 0, table[c as usize]);
    }
    0
}

pub fn x25_reset_cause(c: u8) -> u32
    ensures { result ≡ text_in reset_causes [] c }
{
    if c < 30 {
        let table =
            b"\x01\x0d\x00\x05\x00\x07\x00\x04\x00\x0e\x00\x00\x00\x00\x00\x0f\x00\x0a\x00\x00\x00\x00\x00\x00\x00\x00\x00\x00\x00\x10";
        return lifted(0, 0, table[c as usize]);
    }
    0
}

pub fn x25_restart_cause(c: u8) -> u32
    ensures { result ≡ text_in restart_causes [] c }
{
    if c < 8 {
        let table = b"\x00\x07\x00\x04\x00\x00\x00\x0f";
        return lifted(0, 0, table[c as usize]);
    }
    0
}

pub fn x25_diagnostic(c: u8) -> u32
    ensures { result ≡ text_in diagnostics [] c }
{
    if c < 251 {
        let table =
            b"\x11\x12\x13\x00\x00\x00\x00\x00\x00\x00\x00\x00\x00\x00\x00\x00\x14\x15\x16\x17\x18\x19\x1a\x1b\x1c\x1d\x1e\x1f\x20\x21\x00\x00\x22\x23\x24\x25\x26\x27\x28\x29\x2a\x2b\x2c\x2d\x2e\x2f\x30\x00\x31\x32\x33\x34\x35\x36\x00\x00\x00\x00\x00\x00\x00\x00\x00\x00\x37\x38\x39\x3a\x3b\x3c\x3d\x3e\x3f\x40\x41\x42\x43\x44\x45\x00\x46\x47\x48\x49\x4a\x4b\x00\x00\x00\x00\x00\x00\x00\x00\x00\x00\x00\x00\x00\x00\x00\x00\x00\x00\x00\x00\x00\x00\x00\x00\x00\x00\x4c\x4d\x4e\x4f\x50\x51\x52\x53\x54\x55\x56\x00\x00\x00\x00\x00\x57\x58\x59\x5a\x5b\x5c\x5d\x5e\x5f\x00\x00\x00\x00\x00\x00\x60\x61\x62\x63\x64\x00\x00\x00\x00\x00\x00\x00\x00\x00\x00\x00\x00\x00\x00\x00\x00\x00\x00\x00\x00\x00\x00\x00\x00\x00\x00\x00\x00\x00\x00\x00\x00\x00\x00\x00\x00\x00\x00\x00\x00\x00\x00\x00\x00\x00\x00\x00\x00\x00\x00\x00\x00\x00\x00\x00\x00\x00\x00\x00\x00\x00\x00\x00\x00\x00\x00\x00\x00\x00\x00\x00\x00\x00\x00\x00\x00\x00\x65\x66\x67\x68\x69\x6a\x6b\x6c\x6d\x6e\x6f\x00\x00\x00\x00\x70\x71\x72\x73\x74\x75\x76\x77\x78\x79\x7a";
        return lifted(0, 0, table[c as usize]);
    }
    0
}

pub fn esis_option_name(c: u8) -> u32
    ensures { result ≡ text_in esis_options (octets "unknown") c }
{
    match c {
        0x81 => 138,
        0x88 => 139,
        0xCF => 140,
        0xC5 => 141,
        _ => 142,
    }
}

pub fn idrp_attr_name(c: u8) -> u32
    ensures { result ≡ text_in idrp_attributes (octets "unknown") c }
{
    match c {
        1 => 147,
        2 => 148,
        3 => 149,
        4 => 150,
        5 => 151,
        6 => 152,
        7 => 153,
        8 => 154,
        9 => 155,
        10 => 156,
        11 => 157,
        12 => 158,
        13 => 159,
        14 => 141,
        15 => 160,
        16 => 140,
        _ => 142,
    }
}

pub fn idrp_pdu_type_name(c: u8) -> u32
    ensures { result ≡ text_in idrp_types (octets "?") c }
{
    match c {
        1 => 161,
        2 => 162,
        3 => 163,
        4 => 164,
        5 => 165,
        6 => 166,
        _ => 123,
    }
}

pub fn idrp_error_code_name(c: u8) -> u32
    ensures { result ≡ text_in idrp_errors (octets "?") c }
{
    match c {
        1 => 167,
        2 => 168,
        3 => 169,
        4 => 170,
        5 => 171,
        _ => 123,
    }
}

fn open_error(sub: u8) -> u32
    ensures { result ≡ text_in open_errors [] sub }
{
    match sub {
        1 => 172,
        2 => 173,
        3 => 174,
        4 => 175,
        5 => 176,
        6 => 177,
        7 => 178,
        _ => 0,
    }
}

fn update_error(sub: u8) -> u32
    ensures { result ≡ text_in update_errors [] sub }
{
    match sub {
        1 => 179,
        2 => 180,
        3 => 181,
        4 => 182,
        5 => 183,
        6 => 184,
        7 => 185,
        8 => 186,
        9 => 187,
        10 => 188,
        11 => 189,
        12 => 190,
        13 => 191,
        _ => 0,
    }
}

fn refresh_error(sub: u8) -> u32
    ensures { result ≡ text_in refresh_errors [] sub }
{
    match sub {
        1 => 192,
        2 => 193,
        _ => 0,
    }
}

#[tactic(auto, unfolding(crate::specs::Codes::error_subcodes))]
pub fn idrp_error_subcode_name(code: u8, sub: u8) -> u32
    ensures { result ≡ text_in (error_subcodes code) [] sub }
{
    match code {
        1 => open_error(sub),
        2 => update_error(sub),
        5 => refresh_error(sub),
        _ => 0,
    }
}

pub fn clnp_option_name(c: u8) -> u32
    ensures { result ≡ text_in clnp_options [] c }
{
    match c {
        0x05 => 199,
        0xC1 => 200,
        0xC3 => 201,
        0xC4 => 202,
        0xC5 => 141,
        0xC6 => 203,
        0xC8 => 204,
        0xCB => 205,
        0xCC => 206,
        0xCD => 140,
        _ => 0,
    }
}

pub fn atn_traffic_type_name(c: u8) -> u32
    ensures { result ≡ text_in traffic_types [] c }
{
    match c {
        1 => 207,
        2 => 208,
        4 => 209,
        8 => 210,
        16 => 211,
        _ => 0,
    }
}

pub fn atsc_class_name(c: u8) -> u32
    ensures { result ≡ text_in atsc_classes [] c }
{
    match c {
        1 => 212,
        2 => 213,
        4 => 214,
        8 => 215,
        16 => 216,
        32 => 217,
        64 => 218,
        128 => 219,
        _ => 0,
    }
}

pub fn atn_subnet_name(c: u8) -> u32
    ensures { result ≡ text_in subnets [] c }
{
    match c {
        1 => 220,
        2 => 221,
        3 => 222,
        4 => 223,
        5 => 224,
        _ => 0,
    }
}

pub fn atn_security_class_name(c: u8) -> u32
    ensures { result ≡ text_in security_classes [] c }
{
    match c {
        1 => 225,
        2 => 226,
        3 => 227,
        4 => 228,
        5 => 229,
        _ => 0,
    }
}

pub fn cotp_dr_reason(c: u8) -> u32
    ensures { result ≡ text_in disconnect_reasons [] c }
{
    match c {
        0 => 245,
        1 => 246,
        2 => 247,
        3 => 248,
        128 => 249,
        129 => 250,
        130 => 251,
        131 => 252,
        132 => 253,
        133 => 254,
        135 => 255,
        136 => 256,
        138 => 257,
        _ => 0,
    }
}

pub fn cotp_er_reject_cause(c: u8) -> u32
    ensures { result ≡ text_in reject_causes [] c }
{
    match c {
        0 => 245,
        1 => 258,
        2 => 259,
        3 => 260,
        _ => 0,
    }
}

pub fn cotp_param_name(c: u8) -> u32
    ensures { result ≡ text_in cotp_params [] c }
{
    match c {
        0x08 => 261,
        0x85 => 262,
        0x86 => 263,
        0x87 => 140,
        0x88 => 264,
        0x89 => 265,
        0x8A => 266,
        0x8B => 267,
        0x8C => 268,
        0x8F => 269,
        0xC0 => 270,
        0xC1 => 271,
        0xC2 => 272,
        0xC3 => 273,
        0xC4 => 274,
        0xC5 => 275,
        0xC6 => 276,
        0xC7 => 277,
        0xE0 => 278,
        0xF0 => 279,
        0xF2 => 280,
        _ => 0,
    }
}
