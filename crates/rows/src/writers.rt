// Rows 1 to 9: the buffered writer and the line writer. Capacity 4 unless said.
use crate::print::{Hex, Said};
use card::{Answer, counted, uncounted};
use flushing::{BufWriter, State};
use line::linewriter;
use std::io;
use std::io::Write;
use writer::bufwriter;

// What a row calls.
enum Call<'a> {
    Write(&'a [u8]),
    WriteAll(&'a [u8]),
    Flush,
    LineWrite(&'a [u8]),
}

// A line: answer, device calls, the bytes held, the bytes out and the whole storage.
fn show(
    rt: &HostRuntime,
    row: usize,
    name: &str,
    answer: Answer,
    w: &BufWriter<'_, '_>,
) -> io::Result<()> {
    let out = w.state.out.min(w.medium.len());
    println!(rt;
        "{row} {name} {} calls {} held {} out {} storage {}",
        Said(answer),
        w.calls,
        Hex(bufwriter::buffer(w.state, w.storage)),
        Hex(&w.medium[..out]),
        Hex(w.storage)
    )
}

// A call from a state, and its line.
fn run(
    rt: &HostRuntime,
    row: usize,
    call: Call<'_>,
    state: State,
    storage: &mut [u8],
    script: &[u32],
) -> io::Result<()> {
    let mut medium = [0u8; 16];
    let mut w = BufWriter {
        state,
        storage,
        script,
        medium: &mut medium,
        calls: 0,
    };
    let (name, answer) = match call {
        Call::Write(slice) => ("write", counted(bufwriter::write(&mut w, slice))),
        Call::WriteAll(slice) => ("write_all", uncounted(bufwriter::write_all(&mut w, slice))),
        Call::Flush => ("flush", uncounted(bufwriter::flush(&mut w))),
        Call::LineWrite(slice) => ("line write", counted(linewriter::write(&mut w, slice))),
    };
    show(rt, row, name, answer, &w)
}

// A new writer's call.
fn new(rt: &HostRuntime, row: usize, call: Call<'_>, script: &[u32]) -> io::Result<()> {
    run(rt, row, call, bufwriter::new(), &mut [0; 4], script)
}

// A call of a writer that holds abc, with storage abc0.
fn held(rt: &HostRuntime, row: usize, call: Call<'_>, script: &[u32]) -> io::Result<()> {
    let state = State {
        held: 3,
        out: 0,
        used: 0,
    };
    run(rt, row, call, state, &mut [b'a', b'b', b'c', 0], script)
}

pub(crate) fn rows(rt: &HostRuntime) -> io::Result<()> {
    // 1. `write` abcd, [4].
    new(rt, 1, Call::Write(b"abcd"), &[4])?;
    // 2. held abc, `write` d, [].
    held(rt, 2, Call::Write(b"d"), &[])?;
    // 3. held abc, storage abc0, `write` de, [1, 65,536, 2].
    held(rt, 3, Call::Write(b"de"), &[1, 65536, 2])?;
    // 4. held abc, `flush`, [2, 0].
    held(rt, 4, Call::Flush, &[2, 0])?;
    // 5. held abc, `flush`, [3].
    held(rt, 5, Call::Flush, &[3])?;
    // 6. Capacity 0, `write` of nothing, [7]. `write_all` of nothing.
    run(rt, 6, Call::Write(b""), bufwriter::new(), &mut [], &[7])?;
    run(rt, 6, Call::WriteAll(b""), bufwriter::new(), &mut [], &[7])?;
    // 7. line `write` ab\ncd, [3]. ab\ncdef, [3].
    new(rt, 7, Call::LineWrite(b"ab\ncd"), &[3])?;
    new(rt, 7, Call::LineWrite(b"ab\ncdef"), &[3])?;
    // 8. line `write` a\nbcdefg\nh, [1]. With [2].
    new(rt, 8, Call::LineWrite(b"a\nbcdefg\nh"), &[1])?;
    new(rt, 8, Call::LineWrite(b"a\nbcdefg\nh"), &[2])?;
    // 9. line `write` abcde\n, [2].
    new(rt, 9, Call::LineWrite(b"abcde\n"), &[2])
}
