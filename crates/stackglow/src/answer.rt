// An answer in two numbers, as C takes it.
ghost use Rattle.std.specs.Prelude.{◌≡◌};
ghost use Rattle.card.specs.Answers.{said};
ghost use Rattle.stackglow.specs.Numbers.{number_of, value_of};

use card::{Answer, Failure};

pub(crate) fn number(answer: Answer) -> u32
    ensures { result ≡ number_of (said answer) }
{
    match answer {
        Ok(_) => 0,
        Err(Failure::Interrupted) => 1,
        Err(Failure::Zero) => 2,
        Err(Failure::Error(_)) => 3,
        Err(Failure::Whole) => 4,
        Err(Failure::Refused(_)) => 5,
    }
}

pub(crate) fn value(answer: Answer) -> usize
    ensures { result ≡ value_of (said answer) }
{
    match answer {
        Ok(count) => count.unwrap_or(0),
        Err(Failure::Error(code)) => code as usize,
        Err(Failure::Refused(number)) => number as usize,
        Err(Failure::Interrupted | Failure::Zero | Failure::Whole) => 0,
    }
}
