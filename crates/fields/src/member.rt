// Members that may be left out.
ghost use Rattle.std.specs.Prelude.{◌<◌};
ghost use Rattle.octets.specs.Emit.{Emits};
ghost use Rattle.cells.specs.Items.{flat};
ghost use Rattle.fields.specs.Member.{opt_text, opt_yes};

use cells::emit::{put_flag, put_text_number};

// A text by its number, which is 0 where there is none.
pub fn put_text_if(out: &mut [u64], at: usize, depth: u8, field: u8, t: u32) -> usize
    requires { depth < 16 }
    ensures { Emits out.old at (flat depth (opt_text field t)) out.new result }
{
    if t == 0 {
        return at;
    }
    put_text_number(out, at, depth, field, t)
}

// A yes, and nothing for a no.
pub fn put_yes_if(out: &mut [u64], at: usize, depth: u8, field: u8, b: bool) -> usize
    requires { depth < 16 }
    ensures { Emits out.old at (flat depth (opt_yes field b)) out.new result }
{
    if b {
        return put_flag(out, at, depth, field, 1);
    }
    at
}
