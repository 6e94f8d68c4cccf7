// What a parser or the printer answers: with how many cells or octets on success.
ghost use Rattle.std.specs.Prelude.{◌≡◌};
ghost use Rattle.cells.specs.Answer.{number_of, count_of};

#[derive(Clone, Copy, PartialEq, Eq)]
pub enum Refusal {
    TooLong,
    Unreadable,
    Short,
}

pub type Answer = Result<usize, Refusal>;

pub fn number(a: Answer) -> u8
    ensures { result ≡ number_of a }
{
    match a {
        Ok(_) => 0,
        Err(Refusal::TooLong) => 3,
        Err(Refusal::Unreadable) => 15,
        Err(Refusal::Short) => 10,
    }
}

pub fn count(a: Answer) -> usize
    ensures { result ≡ count_of a }
{
    a.unwrap_or(0)
}
