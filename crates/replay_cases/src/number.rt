//! Numbers in the bytes of a case, and parts of them.
ghost use Rattle.std.specs.Prelude.{◌≡◌, ◌^◌, ◌<◌};
ghost use Rattle.replay_cases.specs.Numbers.{number_in, part_in};

/// The number of four bytes at `at`, or 0 where they do not lie in the bytes.
pub fn number_at(bytes: &[u8], at: usize) -> usize
    ensures value { result ≡ number_in bytes.now at }
    ensures small { result < 2 ^ 32 }
{
    le::le32(bytes, at) as usize
}

/// So many bytes from `at` on, or none where there are not so many.
pub fn part(bytes: &[u8], at: usize, size: usize) -> &[u8]
    ensures { result.now ≡ part_in bytes.now at size }
{
    match bytes.get(at..).and_then(|rest| rest.get(..size)) {
        Some(found) => found,
        None => &[],
    }
}
