// The body of an ERROR.
ghost use Rattle.std.specs.Prelude.{◌<◌, length};
ghost use Rattle.octets.specs.Emit.{Emits};
ghost use Rattle.cells.specs.Items.{flat};
ghost use Rattle.idrp.specs.Pdu.{error_members};

use cells::emit::{put_number, put_text_number};
use codes::{idrp_error_code_name, idrp_error_subcode_name};
use fields::member::put_text_if;
use names::key::{ERROR, ERROR_CODE, ERROR_SUBCODE, ERROR_SUBCODE_TEXT};

pub fn put_error(out: &mut [u64], at: usize, s: &[u8]) -> usize
    requires { 0 < length s.now }
    ensures { Emits out.old at (flat 1 (error_members s.now)) out.new result }
{
    let code = s[0];
    let coded = put_number(out, at, 1, ERROR_CODE, code as u32);
    let named = put_text_number(out, coded, 1, ERROR, idrp_error_code_name(code));
    if s.len() < 2 {
        return named;
    }
    let sub = s[1];
    let told = put_number(out, named, 1, ERROR_SUBCODE, sub as u32);
    put_text_if(
        out,
        told,
        1,
        ERROR_SUBCODE_TEXT,
        idrp_error_subcode_name(code, sub),
    )
}
