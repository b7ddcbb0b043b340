//! Little-endian numbers in lent bytes. A number that does not lie in the slice is 0.
#![tactic(auto)]

ghost use Rattle.std.specs.Prelude.{◌≡◌, ◌+◌, ◌≤◌, length};
ghost use Rattle.std.specs.Option.{SomeIff};
ghost use Rattle.le.specs.Le.{bytes_at, le_at, signed_at, signed64};

/// The number of two bytes at `at`.
pub fn le16(bytes: &[u8], at: usize) -> u16
    ensures { result ≡ le_at 2 bytes.now at }
{
    let chunk = bytes.get(at..).and_then(|rest| rest.first_chunk());
    chunk.map_or(0, |chunk| u16::from_le_bytes(*chunk))
}

/// The number of four bytes at `at`.
pub fn le32(bytes: &[u8], at: usize) -> u32
    ensures { result ≡ le_at 4 bytes.now at }
{
    let chunk = bytes.get(at..).and_then(|rest| rest.first_chunk());
    chunk.map_or(0, |chunk| u32::from_le_bytes(*chunk))
}

/// The number of six bytes at `at`.
pub fn le48(bytes: &[u8], at: usize) -> u64
    ensures { result ≡ le_at 6 bytes.now at }
{
    let Some(rest) = bytes.get(at..) else {
        return 0;
    };
    let Some([a, b, c, d, e, f]) = rest.first_chunk::<6>() else {
        return 0;
    };
    u64::from_le_bytes([*a, *b, *c, *d, *e, *f, 0, 0])
}

/// The number of eight bytes at `at`, if it lies in the slice.
fn u64_at(bytes: &[u8], at: usize) -> Option<u64>
    ensures { SomeIff result (at + 8 ≤ length bytes.now) (bytes_at 8 bytes.now at) }
{
    let chunk = bytes.get(at..)?.first_chunk()?;
    Some(u64::from_le_bytes(*chunk))
}

/// The number of eight bytes at `at`.
pub fn le64(bytes: &[u8], at: usize) -> u64
    ensures { result ≡ le_at 8 bytes.now at }
{
    u64_at(bytes, at).unwrap_or(0)
}

/// 64 bits, read in two's complement.
pub fn signed(number: u64) -> i64
    ensures { result ≡ signed64 number }
{
    number.cast_signed()
}

/// The signed number of eight bytes at `at`.
#[tactic(auto, unfolding(crate::specs::Le::signed_at))]
pub fn signed_le64(bytes: &[u8], at: usize) -> i64
    ensures { result ≡ signed_at bytes.now at }
{
    signed(le64(bytes, at))
}
