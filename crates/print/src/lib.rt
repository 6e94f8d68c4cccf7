// The printer: cells to JSON text.
#![tactic(auto)]

ghost use Rattle.print.specs.Print.{Prints};

use crate::group::print_whole;
use cells::answer::{Answer, Refusal};

mod group;
mod leaf;

// The answer, and where it is whole the text in the output. The first pass measures, and writes nothing.
pub fn print(cells: &[u64], input: &[u8], out: &mut [u8]) -> Answer
    ensures { Prints cells.now input.now out.old result out.new }
{
    if 65535 < input.len() {
        return Err(Refusal::TooLong);
    }
    let Some(size) = print_whole(&mut out[..0], cells, input) else {
        return Err(Refusal::Unreadable);
    };
    if out.len() < size {
        return Err(Refusal::Short);
    }
    print_whole(out, cells, input);
    Ok(size)
}
