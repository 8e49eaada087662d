// A call's answer as numbers and bytes.
use card::{Answer, Failure};
use text::Page;

// 32 bits of a number, lowest byte first.
pub(crate) fn number(page: &mut Page<'_>, n: usize) {
    page.say(&n.to_le_bytes()[..4]);
}

// The first three numbers of every answer. The driver reads these numbers.
pub(crate) fn put(page: &mut Page<'_>, answer: Answer, calls: usize) {
    let (kind, value) = match answer {
        Ok(Some(n)) => (0, n),
        Ok(None) => (1, 0),
        Err(Failure::Interrupted) => (2, 0),
        Err(Failure::Zero) => (3, 0),
        Err(Failure::Whole) => (4, 0),
        Err(Failure::Error(code)) => (5, code as usize),
        Err(Failure::Refused(refusal)) => (6, refusal as usize),
    };
    number(page, kind);
    number(page, value);
    number(page, calls);
}
