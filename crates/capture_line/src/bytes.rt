//! The bytes of a line, one by one.
ghost use Rattle.std.specs.Prelude.{◌≡◌, [], ◌∷◌, ◌++◌, get_or};
ghost use Rattle.capture_line.specs.Text.{ended, hex_pairs, name_text};

use crate::parts::{NEWLINE, hex_digits};

/// The byte at `i`; past the end 0.
pub(crate) fn byte_at(bytes: &[u8], i: usize) -> u8
    ensures { result ≡ get_or bytes.now i 0 }
{
    bytes.get(i).copied().unwrap_or(0)
}

/// A byte of these bytes, and then of a name's text and a newline; past the end 0.
pub(crate) fn byte_behind(head: &[u8], name: &[u8], i: usize) -> u8
    ensures { result ≡ get_or (head.now ++ ended (name_text name.now)) i 0 }
{
    if i < head.len() {
        byte_at(head, i)
    } else {
        name_byte(name, i - head.len())
    }
}

/// A byte of a name's text and a newline.
fn name_byte(name: &[u8], i: usize) -> u8
    ensures { result ≡ get_or (ended (name_text name.now)) i 0 }
{
    let (units, _) = name.as_chunks::<2>();
    if units.is_empty() {
        byte_at(b".\n", i)
    } else {
        digit_byte(units, i)
    }
}

/// A byte of the digits of units and a newline: each unit has four.
fn digit_byte(units: &[[u8; 2]], i: usize) -> u8
    ensures { result ≡ get_or (ended (hex_pairs units.now)) i 0 }
{
    if i / 4 < units.len() {
        let unit = units[i / 4];
        return byte_at(&hex_digits(unit), i % 4);
    }
    if i == 4 * units.len() {
        return NEWLINE;
    }
    0
}
