//! A capture of a directory: fields of a tag, a length and bytes hold its root, its cluster size and its records.
#![tactic(auto)]

mod capture;

ghost use Rattle.std.specs.Prelude.{◌≡◌, length};
ghost use Rattle.capture.specs.Format.{parsed, captured_fields, root_of, pool_of, put_over};
ghost use Rattle.capture.specs.Contents.{told, parts_told};

pub use capture::Capture;
use refusal::Refusal;

/// Every byte of the input is accounted for, or 26.
#[tactic(auto, unfolding(crate::specs::Format::parsed))]
pub fn parse(input: &[u8]) -> Result<Capture<'_>, Refusal>
    ensures is { told result ≡ parsed input.now }
    ensures parts { parts_told result ≡ captured_fields input.now }
{
    Capture::read(input).ok_or(Refusal::MalformedCapture)
}

/// The root's bytes as that very part of the input; nothing where the capture is malformed.
#[tactic(auto, unfolding(crate::specs::Format::parsed, crate::specs::Format::root_of))]
pub fn root_bytes(input: &[u8]) -> &[u8]
    ensures { result.now ≡ root_of input.now }
{
    match parse(input) {
        Ok(capture) => capture.root,
        Err(_) => &[],
    }
}

/// The records of a capture, end to end, at the pool's start; the rest of the pool stays as it is. The answer is their bytes' number.
#[tactic(auto, unfolding(crate::specs::Format::parsed, crate::specs::Format::pool_of))]
pub fn copy_pool(input: &[u8], pool: &mut [u8; 57344]) -> usize
    ensures value { result ≡ length (pool_of input.now) }
    ensures pool_after { pool.new ≡ put_over pool.old (pool_of input.now) }
{
    match parse(input) {
        Ok(capture) => capture.copy_pool(pool),
        Err(_) => 0,
    }
}
