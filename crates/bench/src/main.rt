// The bench program: standard input is one session, and its lines are printed.
#![tactic(auto)]

ghost use Rattle.std.specs.Prelude.{◌≡◌, ◌≤◌, length, IfOk};

use std::io;
use std::io::{Read, Write};

// One more than a session may have, to know that it is too long.
const INPUT_ROOM: usize = form::whole::SESSION_MOST + 1;

// More than the longest text.
const OUTPUT_ROOM: usize = 2400000;

// Zeros. Their length is promised, so that no proof counts them. The program `answers` has the same:
// the two share no library for it.
fn zeros<const N: usize>() -> [u8; N]
    ensures { length result ≡ N }
{
    [0; N]
}

// Reads until the room is full or the input ends; the answer is how many bytes came. The library's
// read_to_end fills a Vec, and there is no heap here.
fn read_full<R: Read>(input: &mut R, room: &mut [u8]) -> io::Result<usize>
    ensures { IfOk result (λ n. n ≤ length room.new) }
{
    let mut done = 0;
    while done < room.len() {
        let n = input.read(&mut room[done..])?;
        if n == 0 {
            return Ok(done);
        }
        done += n;
    }
    Ok(done)
}

fn main(rt: HostRuntime) -> io::Result<()> {
    let mut input = zeros::<INPUT_ROOM>();
    let mut output = zeros::<OUTPUT_ROOM>();
    let n = read_full(&mut rt.stdin(), &mut input)?;
    let r = session::stackglow_session(&input[..n], &mut output);
    rt.stdout().write_all(&output[..r])
}
