// What lines are made of: words, numbers, bytes in hex, names and answers. Digits are made here: std's
// `write!` promises its text only where it answers Ok, and of no writer that it does; a page promises
// its text always.
ghost use Rattle.std.specs.Prelude.{◌≡◌, [], ◌∷◌, ◌++◌, ◌/◌, ◌%◌, ◌<◌};
ghost use Rattle.text.specs.Printed.{printed, written};
ghost use Rattle.text.specs.Words.{name_of};
ghost use Rattle.text.specs.Numbers.{digit, decimal_of, hex_digits, hex_of};
ghost use Rattle.card.specs.Answers.{failed};
ghost use Rattle.text.specs.Answers.{said_of, answer_of};

use crate::{Name, Page};
use card::{Answer, Failure, bytes};

// The byte of a digit.
fn digit_byte(d: u8) -> u8
    requires { d < 16 }
    ensures { result ≡ digit d }
{
    if d < 10 {
        return b'0' + d;
    }
    b'a' + (d - 10)
}

// A digit at a place, where the bytes have that place; the place after it. It is stored and not copied,
// since nearly all of a long text is digits.
#[tactic(auto, using(crate::proofs::Prints::byte_stored, crate::proofs::Prints::byte_cut))]
fn store_digit(output: &mut [u8], at: usize, d: u8) -> usize
    requires { d < 16 }
    ensures { record { output = output.new; at = result } ≡ printed output.old at (digit d ∷ []) }
{
    if output.len() <= at {
        return at;
    }
    output[at] = digit_byte(d);
    at + 1
}

// Two digits a byte, from a place on; the place after them. The place is a number here, so that it need
// not go through the page for each digit.
fn store_hex(output: &mut [u8], at: usize, shown: &[u8]) -> usize
    ensures { record { output = output.new; at = result } ≡ printed output.old at (hex_digits shown.now) }
{
    let mut next = at;
    for byte in shown {
        next = store_digit(output, next, byte / 16);
        next = store_digit(output, next, byte % 16);
    }
    next
}

impl Name {
    // The name in words.
    fn words(self) -> &'static [u8]
        ensures { result.now ≡ name_of self }
    {
        match self {
            Name::Write => b"write",
            Name::WriteAll => b"write_all",
            Name::Flush => b"flush",
            Name::Read => b"read",
            Name::Peek => b"peek",
            Name::Consume => b"consume",
            Name::SeekRelative => b"seek_relative",
            Name::Fill => b"fill",
        }
    }
}

#[tactic(auto, using(crate::proofs::Prints::then))]
impl Page<'_> {
    // The words as they are.
    pub fn say(&mut self, words: &[u8])
        ensures { self.new ≡ written self.old words.now }
    {
        let room = self.bytes.len().saturating_sub(self.at);
        let count = words.len().min(room);
        bytes::copy(self.bytes, self.at, words, count);
        self.at += count;
    }

    // A digit.
    fn digit(&mut self, d: u8)
        requires { d < 16 }
        ensures { self.new ≡ written self.old (digit d ∷ []) }
    {
        self.at = store_digit(self.bytes, self.at, d);
    }

    // A number in decimal. It calls itself on the tenth part: so it needs no buffer, as the crate
    // `itoa` would, and its two cases are the definition's.
    #[tactic(auto, using(crate::proofs::Decimals::prints_one, crate::proofs::Decimals::prints_more))]
    pub fn decimal(&mut self, n: usize)
        ensures { self.new ≡ written self.old (decimal_of n) }
    {
        if 10 <= n {
            self.decimal(n / 10);
        }
        self.digit((n % 10) as u8);
    }

    // Two digits a byte.
    fn hex_digits(&mut self, shown: &[u8])
        ensures { self.new ≡ written self.old (hex_digits shown.now) }
    {
        self.at = store_hex(self.bytes, self.at, shown);
    }

    // Bytes in hex.
    #[tactic(auto, using(crate::proofs::Hexes::none, crate::proofs::Hexes::some))]
    pub fn hex(&mut self, shown: &[u8])
        ensures { self.new ≡ written self.old (hex_of shown.now) }
    {
        if shown.is_empty() {
            self.say(b"-");
            return;
        }
        self.hex_digits(shown);
    }

    // Words, and a number in decimal after them.
    pub fn say_number(&mut self, words: &[u8], n: usize)
        ensures { self.new ≡ written self.old (words.now ++ decimal_of n) }
    {
        self.say(words);
        self.decimal(n);
    }

    // Words, and bytes in hex after them.
    pub fn say_hex(&mut self, words: &[u8], shown: &[u8])
        ensures { self.new ≡ written self.old (words.now ++ hex_of shown.now) }
    {
        self.say(words);
        self.hex(shown);
    }

    // The name of a call.
    pub fn name(&mut self, name: Name)
        ensures { self.new ≡ written self.old (name_of name) }
    {
        self.say(name.words());
    }

    // A failure's word, and its value after it.
    #[tactic(auto, using(crate::proofs::Saids::failures))]
    fn failure(&mut self, failure: Failure)
        ensures { self.new ≡ written self.old (said_of (failed failure)) }
    {
        match failure {
            Failure::Interrupted => self.say(b"interrupted"),
            Failure::Zero => self.say(b"zero"),
            Failure::Whole => self.say(b"whole"),
            Failure::Error(code) => self.say_number(b"error ", code as usize),
            Failure::Refused(number) => self.say_number(b"refused ", number as usize),
        }
    }

    // An answer.
    #[tactic(auto, using(crate::proofs::Saids::answers))]
    pub fn answer(&mut self, answer: Answer)
        ensures { self.new ≡ written self.old (answer_of answer) }
    {
        match answer {
            Ok(Some(n)) => self.say_number(b"ok ", n),
            Ok(None) => self.say(b"ok"),
            Err(failure) => self.failure(failure),
        }
    }
}
