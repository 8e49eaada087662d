// The lines, each with its newline. `session_line`, `writer_end` and `reader_end` are alike in shape
// alone: other words, and hex where another has a number.
ghost use Rattle.std.specs.Prelude.{◌≡◌};
ghost use Rattle.card.specs.Answers.{said};
ghost use Rattle.text.specs.Printed.{written};
ghost use Rattle.text.specs.Lines.{session_line, call_of, writer_calls, writer_line, reader_line, writer_end, reader_end, judge_possible, judge_impossible, judge_refused, session_refused};

use crate::{Name, Page};
use card::Answer;

#[tactic(auto, using(crate::proofs::Prints::then), unfolding(crate::specs::Answers::answer_of, crate::specs::Lines::session_line, crate::specs::Lines::call_of, crate::specs::Lines::writer_calls, crate::specs::Lines::writer_line, crate::specs::Lines::reader_line, crate::specs::Lines::writer_end, crate::specs::Lines::reader_end, crate::specs::Lines::judge_possible, crate::specs::Lines::judge_impossible, crate::specs::Lines::judge_refused, crate::specs::Lines::session_refused))]
impl Page<'_> {
    // `session K capacity C`; K is printed for any number.
    pub fn session_line(&mut self, kind: usize, capacity: usize)
        ensures { self.new ≡ written self.old (session_line kind capacity) }
    {
        self.say_number(b"session ", kind);
        self.say_number(b" capacity ", capacity);
        self.say(b"\n");
    }

    // `NAME ANSWER`, with which a call's line opens.
    fn call(&mut self, name: Name, answer: Answer)
        ensures { self.new ≡ written self.old (call_of name (said answer)) }
    {
        self.name(name);
        self.say(b" ");
        self.answer(answer);
    }

    // `NAME ANSWER calls C held H out O`
    pub fn writer_line(&mut self, name: Name, answer: Answer, calls: usize, held: usize, out: usize)
        ensures { self.new ≡ written self.old (writer_line name (said answer) calls held out) }
    {
        self.call(name, answer);
        self.say_number(b" calls ", calls);
        self.say_number(b" held ", held);
        self.say_number(b" out ", out);
        self.say(b"\n");
    }

    // `NAME ANSWER calls C pos P filled F bytes HEX`
    pub fn reader_line(
        &mut self,
        name: Name,
        answer: Answer,
        calls: usize,
        pos: usize,
        filled: usize,
        bytes: &[u8],
    )
        ensures { self.new ≡ written self.old (reader_line name (said answer) calls pos filled bytes.now) }
    {
        self.call(name, answer);
        self.say_number(b" calls ", calls);
        self.say_number(b" pos ", pos);
        self.say_number(b" filled ", filled);
        self.say_hex(b" bytes ", bytes);
        self.say(b"\n");
    }

    // `end held HEX out HEX`
    pub fn writer_end(&mut self, held: &[u8], out: &[u8])
        ensures { self.new ≡ written self.old (writer_end held.now out.now) }
    {
        self.say_hex(b"end held ", held);
        self.say_hex(b" out ", out);
        self.say(b"\n");
    }

    // `end held HEX taken N`
    pub fn reader_end(&mut self, held: &[u8], taken: usize)
        ensures { self.new ≡ written self.old (reader_end held.now taken) }
    {
        self.say_hex(b"end held ", held);
        self.say_number(b" taken ", taken);
        self.say(b"\n");
    }

    // `judge possible`
    pub fn judge_possible(&mut self)
        ensures { self.new ≡ written self.old judge_possible }
    {
        self.say(b"judge possible\n");
    }

    // `judge impossible`
    pub fn judge_impossible(&mut self)
        ensures { self.new ≡ written self.old judge_impossible }
    {
        self.say(b"judge impossible\n");
    }

    // `judge refused 7 at P`
    pub fn judge_refused(&mut self, place: usize)
        ensures { self.new ≡ written self.old (judge_refused place) }
    {
        self.say_number(b"judge refused 7 at ", place);
        self.say(b"\n");
    }

    // `refused 6 at P`
    pub fn session_refused(&mut self, place: usize)
        ensures { self.new ≡ written self.old (session_refused place) }
    {
        self.say_number(b"refused 6 at ", place);
        self.say(b"\n");
    }
}
