// The reader's calls.
ghost use Rattle.std.specs.Prelude.{◌≡◌};
ghost use Rattle.reader.specs.World.{world};
ghost use Rattle.reader.specs.Reader.{fill_buf, consume, seek_relative, peek, read};
ghost use Rattle.stackglow.specs.Reading.{handed, handed_read, state_of};

use stackglow::reading as calls;

#[unsafe(no_mangle)]
pub extern "C" fn stackglow_fill_buf(
    pos: &mut usize,
    filled: &mut usize,
    taken: &mut usize,
    used: &mut usize,
    storage: &mut [u8],
    script: &[u32],
    stock: &[u8],
    value: &mut usize,
    calls: &mut usize,
) -> u32
    ensures { record { number = result; value = value.new; calls = calls.new; pos = pos.new; filled = filled.new; taken = taken.new; used = used.new; storage = storage.new } ≡ handed (fill_buf script.now stock.now (world storage.old (state_of pos.old filled.old taken.old used.old))) }
{
    calls::stackglow_fill_buf(
        pos, filled, taken, used, storage, script, stock, value, calls,
    )
}

#[unsafe(no_mangle)]
pub extern "C" fn stackglow_consume(
    pos: &mut usize,
    filled: &mut usize,
    taken: &mut usize,
    used: &mut usize,
    storage: &[u8],
    script: &[u32],
    stock: &[u8],
    amt: usize,
    value: &mut usize,
    calls: &mut usize,
) -> u32
    ensures { record { number = result; value = value.new; calls = calls.new; pos = pos.new; filled = filled.new; taken = taken.new; used = used.new; storage = storage.now } ≡ handed (consume script.now stock.now amt (world storage.now (state_of pos.old filled.old taken.old used.old))) }
{
    calls::stackglow_consume(
        pos, filled, taken, used, storage, script, stock, amt, value, calls,
    )
}

#[unsafe(no_mangle)]
pub extern "C" fn stackglow_read(
    pos: &mut usize,
    filled: &mut usize,
    taken: &mut usize,
    used: &mut usize,
    storage: &mut [u8],
    script: &[u32],
    stock: &[u8],
    destination: &mut [u8],
    value: &mut usize,
    calls: &mut usize,
) -> u32
    ensures { record { destination = destination.new; call = record { number = result; value = value.new; calls = calls.new; pos = pos.new; filled = filled.new; taken = taken.new; used = used.new; storage = storage.new } } ≡ handed_read (read script.now stock.now destination.old (world storage.old (state_of pos.old filled.old taken.old used.old))) }
{
    calls::stackglow_read(
        pos,
        filled,
        taken,
        used,
        storage,
        script,
        stock,
        destination,
        value,
        calls,
    )
}

#[unsafe(no_mangle)]
pub extern "C" fn stackglow_peek(
    pos: &mut usize,
    filled: &mut usize,
    taken: &mut usize,
    used: &mut usize,
    storage: &mut [u8],
    script: &[u32],
    stock: &[u8],
    n: usize,
    value: &mut usize,
    calls: &mut usize,
) -> u32
    ensures { record { number = result; value = value.new; calls = calls.new; pos = pos.new; filled = filled.new; taken = taken.new; used = used.new; storage = storage.new } ≡ handed (peek script.now stock.now n (world storage.old (state_of pos.old filled.old taken.old used.old))) }
{
    calls::stackglow_peek(
        pos, filled, taken, used, storage, script, stock, n, value, calls,
    )
}

#[unsafe(no_mangle)]
pub extern "C" fn stackglow_seek_relative(
    pos: &mut usize,
    filled: &mut usize,
    taken: &mut usize,
    used: &mut usize,
    storage: &[u8],
    script: &[u32],
    stock: &[u8],
    offset: i64,
    value: &mut usize,
    calls: &mut usize,
) -> u32
    ensures { record { number = result; value = value.new; calls = calls.new; pos = pos.new; filled = filled.new; taken = taken.new; used = used.new; storage = storage.now } ≡ handed (seek_relative script.now stock.now offset (world storage.now (state_of pos.old filled.old taken.old used.old))) }
{
    calls::stackglow_seek_relative(
        pos, filled, taken, used, storage, script, stock, offset, value, calls,
    )
}
