// The line writer's calls as others link them. Their archive, `stackline_c`, is apart from
// `stackglow_c`, since the compiler makes the plain writer's call faster where the line writer does
// not call it too. C asks for their shape, as for that of `stackglow`'s; the flush is `stackglow_flush`.
#![tactic(auto)]

ghost use Rattle.std.specs.Prelude.{◌≡◌};
ghost use Rattle.flushing.specs.World.{world_of, reported};
ghost use Rattle.line.specs.Line.{line_write_call, line_write_all_call};
ghost use Rattle.stackglow.specs.Writing.{handed, state_of};

use flushing::BufWriter;
use line::linewriter;
use stackglow::writing::Places;

pub fn stackglow_line_write(
    held: &mut usize,
    out: &mut usize,
    used: &mut usize,
    storage: &mut [u8],
    script: &[u32],
    medium: &mut [u8],
    slice: &[u8],
    value: &mut usize,
    calls: &mut usize,
) -> u32
    ensures { record { number = result; value = value.new; calls = calls.new; held = held.new; out = out.new; used = used.new; storage = storage.new; medium = medium.new } ≡ handed (reported (line_write_call script.now (world_of (state_of held.old out.old used.old) storage.old medium.old) slice.now)) }
{
    let mut places = Places {
        held,
        out,
        used,
        value,
        calls,
    };
    let mut w = BufWriter {
        state: places.state(),
        storage,
        script,
        medium,
        calls: 0,
    };
    let answer = card::counted(linewriter::write(&mut w, slice));
    places.hand(answer, w.state, w.calls)
}

pub fn stackglow_line_write_all(
    held: &mut usize,
    out: &mut usize,
    used: &mut usize,
    storage: &mut [u8],
    script: &[u32],
    medium: &mut [u8],
    slice: &[u8],
    value: &mut usize,
    calls: &mut usize,
) -> u32
    ensures { record { number = result; value = value.new; calls = calls.new; held = held.new; out = out.new; used = used.new; storage = storage.new; medium = medium.new } ≡ handed (reported (line_write_all_call script.now (world_of (state_of held.old out.old used.old) storage.old medium.old) slice.now)) }
{
    let mut places = Places {
        held,
        out,
        used,
        value,
        calls,
    };
    let mut w = BufWriter {
        state: places.state(),
        storage,
        script,
        medium,
        calls: 0,
    };
    let answer = card::uncounted(linewriter::write_all(&mut w, slice));
    places.hand(answer, w.state, w.calls)
}
