// A cell, made and taken apart, and the forms by name.
ghost use Rattle.std.specs.Prelude.{◌≡◌, ◌<◌};
ghost use Rattle.cells.specs.Cell.{cell_of, field_of, form_of, depth_of, len_of, value_of};

pub const NUMBER: u8 = 0;

pub const FLAG: u8 = 1;

pub const PART: u8 = 2;

pub const TEXT: u8 = 3;

pub const OBJECT: u8 = 4;

pub const LIST: u8 = 5;

pub const CLOSE: u8 = 6;

pub const PREFIX: u8 = 7;

pub const OCTET: u8 = 8;

pub const WORD: u8 = 9;

pub fn cell(field: u8, form: u8, depth: u8, len: u16, value: u32) -> u64
    requires { (form < 16) × (depth < 16) }
    ensures { result ≡ cell_of field form depth len value }
{
    (field as u64) * 72057594037927936
        + (form as u64) * 4503599627370496
        + (depth as u64) * 281474976710656
        + (len as u64) * 4294967296
        + (value as u64)
}

pub fn field(c: u64) -> u8
    ensures { result ≡ field_of c }
{
    (c / 72057594037927936) as u8
}

pub fn form(c: u64) -> u8
    ensures { result ≡ form_of c }
{
    (c / 4503599627370496 % 16) as u8
}

pub fn depth(c: u64) -> u8
    ensures { (result ≡ depth_of c) × (result < 16) }
{
    (c / 281474976710656 % 16) as u8
}

pub fn len(c: u64) -> u16
    ensures { result ≡ len_of c }
{
    (c / 4294967296 % 65536) as u16
}

pub fn value(c: u64) -> u32
    ensures { result ≡ value_of c }
{
    (c % 4294967296) as u32
}
