// The writer's calls.
ghost use Rattle.std.specs.Prelude.{◌≡◌};
ghost use Rattle.flushing.specs.World.{world_of, reported};
ghost use Rattle.flushing.specs.Flush.{flush_buf_call};
ghost use Rattle.writer.specs.Writer.{write_call, write_all_call, flush_call};
ghost use Rattle.stackglow.specs.Writing.{handed, state_of};

use stackglow::writing as calls;

#[unsafe(no_mangle)]
pub extern "C" fn stackglow_flush_buf(
    held: &mut usize,
    out: &mut usize,
    used: &mut usize,
    storage: &mut [u8],
    script: &[u32],
    medium: &mut [u8],
    value: &mut usize,
    calls: &mut usize,
) -> u32
    ensures { record { number = result; value = value.new; calls = calls.new; held = held.new; out = out.new; used = used.new; storage = storage.new; medium = medium.new } ≡ handed (reported (flush_buf_call script.now (world_of (state_of held.old out.old used.old) storage.old medium.old))) }
{
    calls::stackglow_flush_buf(held, out, used, storage, script, medium, value, calls)
}

#[unsafe(no_mangle)]
pub extern "C" fn stackglow_write(
    held: &mut usize,
    out: &mut usize,
    used: &mut usize,
    storage: &mut [u8],
    script: &[u32],
    medium: &mut [u8],
    slice: &[u8],
    value: &mut usize,
    calls: &mut usize,
) -> u32
    ensures { record { number = result; value = value.new; calls = calls.new; held = held.new; out = out.new; used = used.new; storage = storage.new; medium = medium.new } ≡ handed (reported (write_call script.now (world_of (state_of held.old out.old used.old) storage.old medium.old) slice.now)) }
{
    calls::stackglow_write(
        held, out, used, storage, script, medium, slice, value, calls,
    )
}

#[unsafe(no_mangle)]
pub extern "C" fn stackglow_write_all(
    held: &mut usize,
    out: &mut usize,
    used: &mut usize,
    storage: &mut [u8],
    script: &[u32],
    medium: &mut [u8],
    slice: &[u8],
    value: &mut usize,
    calls: &mut usize,
) -> u32
    ensures { record { number = result; value = value.new; calls = calls.new; held = held.new; out = out.new; used = used.new; storage = storage.new; medium = medium.new } ≡ handed (reported (write_all_call script.now (world_of (state_of held.old out.old used.old) storage.old medium.old) slice.now)) }
{
    calls::stackglow_write_all(
        held, out, used, storage, script, medium, slice, value, calls,
    )
}

#[unsafe(no_mangle)]
pub extern "C" fn stackglow_flush(
    held: &mut usize,
    out: &mut usize,
    used: &mut usize,
    storage: &mut [u8],
    script: &[u32],
    medium: &mut [u8],
    value: &mut usize,
    calls: &mut usize,
) -> u32
    ensures { record { number = result; value = value.new; calls = calls.new; held = held.new; out = out.new; used = used.new; storage = storage.new; medium = medium.new } ≡ handed (reported (flush_call script.now (world_of (state_of held.old out.old used.old) storage.old medium.old))) }
{
    calls::stackglow_flush(held, out, used, storage, script, medium, value, calls)
}
