// The archive of the line writer's calls: each export is the call of `stackline` that has its name,
// under the same promise.
#![tactic(auto)]

ghost use Rattle.std.specs.Prelude.{◌≡◌};
ghost use Rattle.flushing.specs.World.{world_of, reported};
ghost use Rattle.line.specs.Line.{line_write_call, line_write_all_call};
ghost use Rattle.stackglow.specs.Writing.{handed, state_of};

#[unsafe(no_mangle)]
pub extern "C" fn stackglow_line_write(
    held: &mut usize,
    out: &mut usize,
    used: &mut usize,
    storage: &mut [u8],
    script: &[u32],
    medium: &mut [u8],
    slice: &[u8],
    value: &mut usize,
    calls: &mut usize,
) -> u32
    ensures { record { number = result; value = value.new; calls = calls.new; held = held.new; out = out.new; used = used.new; storage = storage.new; medium = medium.new } ≡ handed (reported (line_write_call script.now (world_of (state_of held.old out.old used.old) storage.old medium.old) slice.now)) }
{
    stackline::stackglow_line_write(
        held, out, used, storage, script, medium, slice, value, calls,
    )
}

#[unsafe(no_mangle)]
pub extern "C" fn stackglow_line_write_all(
    held: &mut usize,
    out: &mut usize,
    used: &mut usize,
    storage: &mut [u8],
    script: &[u32],
    medium: &mut [u8],
    slice: &[u8],
    value: &mut usize,
    calls: &mut usize,
) -> u32
    ensures { record { number = result; value = value.new; calls = calls.new; held = held.new; out = out.new; used = used.new; storage = storage.new; medium = medium.new } ≡ handed (reported (line_write_all_call script.now (world_of (state_of held.old out.old used.old) storage.old medium.old) slice.now)) }
{
    stackline::stackglow_line_write_all(
        held, out, used, storage, script, medium, slice, value, calls,
    )
}
