// Little-endian numbers of a slice of bytes, read and written, and the f64 of a bit pattern.
#![tactic(auto)]

ghost use Rattle.std.specs.Prelude.{◌≡◌, ◌+◌, ◌<◌, ◌≤◌, length};
ghost use Rattle.std.specs.Float.{binary64};
ghost use Rattle.std.specs.Float.Ieee.{of_bits};
ghost use Rattle.lists.specs.Lists.{put};
ghost use Rattle.little_endian.specs.Bytes.{u16_at, u32_at, u64_at, bytes4};

pub fn u16_at(s: &[u8], at: usize) -> u32
    requires { at + 2 ≤ length s.now }
    ensures { result ≡ u16_at s.now at }
{
    u32::from(u16::from_le_bytes([s[at], s[at + 1]]))
}

pub fn u32_at(s: &[u8], at: usize) -> u32
    requires { at + 4 ≤ length s.now }
    ensures { result ≡ u32_at s.now at }
{
    u32::from_le_bytes([s[at], s[at + 1], s[at + 2], s[at + 3]])
}

pub fn u64_at(s: &[u8], at: usize) -> u64
    requires { at + 8 ≤ length s.now }
    ensures { result ≡ u64_at s.now at }
{
    let low = u64::from(u32_at(s, at));
    let high = u64::from(u32_at(s, at + 4));
    low + 4294967296 * high
}

// The f64 of a bit pattern, at a NaN's pattern too: every NaN is one value to the contracts.
#[tactic(auto, using(crate::proofs::Nan::no_nan, crate::proofs::Nan::zero_by_zero))]
pub fn f64_of(bits: u64) -> f64
    ensures { result ≡ of_bits binary64 bits }
{
    let magnitude = bits % 0x8000_0000_0000_0000;
    if magnitude > 0x7ff0_0000_0000_0000 {
        0.0 / 0.0
    } else {
        f64::from_bits(bits)
    }
}

// The four bytes of a number in place of those that stood there.
pub fn put_u32(out: &mut [u8], at: usize, n: u32)
    requires { at + 4 ≤ length out.old }
    ensures { out.new ≡ put out.old at (bytes4 n) }
{
    out[at..at + 4].copy_from_slice(&n.to_le_bytes());
}
