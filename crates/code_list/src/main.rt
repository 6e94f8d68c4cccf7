// Prints every code that the Rust names, with its text: FUNCTION CODE TEXT. The file stdout holds the Rust's own answers.
#![tactic(auto)]

use codes::{
    atn_security_class_name, atn_subnet_name, atn_traffic_type_name, atsc_class_name,
    clnp_option_name, cotp_dr_reason, cotp_er_reject_cause, cotp_param_name, esis_option_name,
    idrp_attr_name, idrp_error_code_name, idrp_error_subcode_name, idrp_pdu_type_name,
    x25_clear_cause, x25_diagnostic, x25_reset_cause, x25_restart_cause,
};
use names::text::put_text;
use octets::emit::{put_octet, put_octets};
use octets::text::put_hex_octet;
use std::io::{self, Stdout, Write};

// Writes a space, the text and a line feed behind the first at octets, and all of it to standard output.
fn end_line(to: &mut Stdout, out: &mut [u8], at: usize, text: u32) -> io::Result<()> {
    let space = put_octet(out, at, b' ');
    let next = put_text(out, space, text);
    let n = put_octet(out, next, b'\n');
    if n <= out.len() {
        to.write_all(&out[..n])?;
    }
    Ok(())
}

fn line(to: &mut Stdout, out: &mut [u8], function: &[u8], code: u8, text: u32) -> io::Result<()> {
    if text == 0 {
        return Ok(());
    }
    let a = put_octets(out, 0, function);
    let b = put_octet(out, a, b' ');
    let c = put_hex_octet(out, b, code);
    end_line(to, out, c, text)
}

fn pair_line(to: &mut Stdout, out: &mut [u8], code: u8, sub: u8, text: u32) -> io::Result<()> {
    if text == 0 {
        return Ok(());
    }
    let a = put_octets(out, 0, b"idrp_error_subcode_name ");
    let b = put_hex_octet(out, a, code);
    let c = put_hex_octet(out, b, sub);
    end_line(to, out, c, text)
}

// A line for each code that a table names.
fn table<F: Fn(u8) -> u32>(
    to: &mut Stdout,
    out: &mut [u8],
    function: &[u8],
    text: F,
) -> io::Result<()>
    requires { F.IsAlwaysCallable text }
{
    for c in 0..=255u8 {
        line(to, out, function, c, text(c))?;
    }
    Ok(())
}

fn tables(to: &mut Stdout, out: &mut [u8]) -> io::Result<()> {
    table(to, out, b"x25_clear_cause", x25_clear_cause)?;
    table(to, out, b"x25_reset_cause", x25_reset_cause)?;
    table(to, out, b"x25_restart_cause", x25_restart_cause)?;
    table(to, out, b"x25_diagnostic", x25_diagnostic)?;
    table(to, out, b"esis_option_name", esis_option_name)?;
    table(to, out, b"idrp_attr_name", idrp_attr_name)?;
    table(to, out, b"idrp_pdu_type_name", idrp_pdu_type_name)?;
    table(to, out, b"idrp_error_code_name", idrp_error_code_name)?;
    table(to, out, b"clnp_option_name", clnp_option_name)?;
    table(to, out, b"atn_traffic_type_name", atn_traffic_type_name)?;
    table(to, out, b"atsc_class_name", atsc_class_name)?;
    table(to, out, b"atn_subnet_name", atn_subnet_name)?;
    table(to, out, b"atn_security_class_name", atn_security_class_name)?;
    table(to, out, b"cotp_dr_reason", cotp_dr_reason)?;
    table(to, out, b"cotp_er_reject_cause", cotp_er_reject_cause)?;
    table(to, out, b"cotp_param_name", cotp_param_name)
}

fn pairs(to: &mut Stdout, out: &mut [u8]) -> io::Result<()> {
    for code in 0..=255u8 {
        for sub in 0..=255u8 {
            pair_line(to, out, code, sub, idrp_error_subcode_name(code, sub))?;
        }
    }
    Ok(())
}

fn main(rt: HostRuntime) -> io::Result<()> {
    let mut to = rt.stdout();
    let mut out = [0u8; 256];
    tables(&mut to, &mut out)?;
    pairs(&mut to, &mut out)
}
