// Copies of bytes. std's own copies ask for lengths that fit; these promise every byte for all.
// A copy of std's whose length the compiler does not know becomes a call of the C library's memmove, and
// the archives ask C for none: so bytes go by blocks of a known length, each by std's copy, which is a
// move or a few.
// `least` and `left` are std's `min` and `saturating_sub`, and stand because they are public.
ghost use Rattle.std.specs.Prelude.{◌≡◌, ◌+◌, ◌-◌, ◌≤◌, ◌<◌, min, length, take, drop};
ghost use Rattle.laws.specs.Put.{put};

pub fn least(a: usize, b: usize) -> usize
    ensures { result ≡ min a b }
{
    a.min(b)
}

// What is left of a length from a place on; nothing where the place is past its end.
pub fn left(length: usize, at: usize) -> usize
    ensures { result ≡ length - at }
{
    length.saturating_sub(at)
}

// The N bytes of src from place `from` on over those of dst from place `at` on. They are read whole
// before any of them is stored, so that the compiler need not know src and dst apart.
fn copy_block<const N: usize>(dst: &mut [u8], at: usize, src: &[u8], from: usize)
    requires room { at + N ≤ length dst.old }
    requires there { from + N ≤ length src.now }
    ensures { dst.new ≡ put dst.old at (drop from src.now) N }
{
    let mut block = [0; N];
    block.copy_from_slice(&src[from..from + N]);
    dst[at..at + N].copy_from_slice(&block);
}

// At least N bytes. The last block ends where the bytes end and may overlap the one before it, so that
// no rest is left to go byte by byte.
fn copy_blocks<const N: usize>(dst: &mut [u8], at: usize, src: &[u8], n: usize)
    requires room { at + n ≤ length dst.old }
    requires there { n ≤ length src.now }
    requires block { (0 < N) × (N ≤ n) }
    ensures { dst.new ≡ put dst.old at src.now n }
{
    let rest = n - N;
    let mut i = 0;
    while i < rest {
        copy_block::<N>(dst, at + i, src, i);
        i += N;
    }
    copy_block::<N>(dst, at + rest, src, rest);
}

// The first n bytes of src over those of dst from place `at` on, by the widest blocks that fit.
fn copy_exact(dst: &mut [u8], at: usize, src: &[u8], n: usize)
    requires room { at + n ≤ length dst.old }
    requires there { n ≤ length src.now }
    ensures { dst.new ≡ put dst.old at src.now n }
{
    if 64 <= n {
        copy_blocks::<64>(dst, at, src, n);
        return;
    }
    if 16 <= n {
        copy_blocks::<16>(dst, at, src, n);
        return;
    }
    if 4 <= n {
        copy_blocks::<4>(dst, at, src, n);
        return;
    }
    for i in 0..n {
        dst[at + i] = src[i];
    }
}

// The first bytes of src over those of dst from place `at` on, for every input: no more bytes than
// src has, nor than dst has from `at` on.
pub fn copy(dst: &mut [u8], at: usize, src: &[u8], n: usize)
    ensures { dst.new ≡ put dst.old at src.now (min n (min (length src.now) (length dst.old - at))) }
{
    if dst.len() < at {
        return;
    }
    let count = n.min(src.len()).min(dst.len() - at);
    copy_exact(dst, at, src, count);
}

// The n bytes from place `from` on, moved to the front.
fn shift_exact(bytes: &mut [u8], from: usize, n: usize)
    requires { from + n ≤ length bytes.old }
    ensures { bytes.new ≡ put bytes.old 0 (drop from bytes.old) n }
{
    for i in 0..n {
        bytes[i] = bytes[from + i];
    }
}

// The bytes from place `from` up to `to` moved to the front, for every input: nothing past the
// end is moved. Every other byte stays.
pub fn shift(bytes: &mut [u8], from: usize, to: usize)
    ensures { bytes.new ≡ put bytes.old 0 (drop from bytes.old) (min to (length bytes.old) - from) }
{
    let end = to.min(bytes.len());
    if end < from {
        return;
    }
    shift_exact(bytes, from, end - from);
}
