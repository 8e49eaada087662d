// What the lines are made of. Crate `text` has the same words on a page of lent bytes, for the bench
// program's lines; here they are `Display`, since `println!` prints the rows, and they check what the
// calls answer without that crate.
use card::{Answer, Failure};
use std::fmt;
use std::fmt::Display;

// Bytes in hex; no bytes are `-`.
#[derive(Clone, Copy)]
pub(crate) struct Hex<'a>(pub(crate) &'a [u8]);

impl Display for Hex<'_> {
    fn fmt<W: fmt::Write>(&self, f: &mut fmt::Formatter<W>) -> fmt::Result {
        if self.0.is_empty() {
            return f.write_str("-");
        }
        for byte in self.0 {
            write!(f, "{byte:02x}")?;
        }
        Ok(())
    }
}

// An answer's word, and its value after it.
#[derive(Clone, Copy)]
pub(crate) struct Said(pub(crate) Answer);

impl Display for Said {
    fn fmt<W: fmt::Write>(&self, f: &mut fmt::Formatter<W>) -> fmt::Result {
        match self.0 {
            Ok(Some(n)) => write!(f, "ok {n}"),
            Ok(None) => f.write_str("ok"),
            Err(Failure::Interrupted) => f.write_str("interrupted"),
            Err(Failure::Zero) => f.write_str("zero"),
            Err(Failure::Whole) => f.write_str("whole"),
            Err(Failure::Error(code)) => write!(f, "error {code}"),
            Err(Failure::Refused(refusal)) => write!(f, "refused {refusal}"),
        }
    }
}
