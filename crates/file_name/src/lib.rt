//! The key of a directory's index: a file name with its namespace.
#![tactic(auto)]

mod file_name;

ghost use Rattle.std.specs.Prelude.{◌≡◌};
ghost use Rattle.file_name.specs.Key.{name_bytes};

pub use file_name::{FileName, Namespace};

/// The name's bytes as that very part of the key; nothing where the key is unreadable.
pub fn name(key: &[u8]) -> &[u8]
    ensures { result.now ≡ name_bytes key.now }
{
    match FileName::try_from(key) {
        Ok(name) => name.units,
        Err(_) => &[],
    }
}
