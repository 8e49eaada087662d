// The search for the last newline.
ghost use Rattle.std.specs.Prelude.{◌≡◌};
ghost use Rattle.line.specs.Line.{lines_length};

use memchr::memrchr;

pub const NEWLINE: u8 = b'\n';

// The length of everything up to and including the last newline, 0 where there is none: a length and
// no Option, since that is promised, and no caller adds one to a place.
pub fn lines_length(s: &[u8]) -> usize
    ensures { result ≡ lines_length s.now }
{
    match memrchr(NEWLINE, s) {
        Some(last) => last + 1,
        None => 0,
    }
}
