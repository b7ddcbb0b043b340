//! The parts of a line, each put behind what stands there.
ghost use Rattle.std.specs.Prelude.{◌≡◌, ◌≤◌, ◌+◌, ◌*◌, [], ◌∷◌, ◌++◌, ◌<◌, length, IfSome};
ghost use Rattle.std.specs.Fmt.{decimal};
ghost use Rattle.std.specs.List.{concat};
ghost use Rattle.arrayvec.specs.ArrayVec.{array_vec_len};
ghost use Rattle.file_reference.specs.Reference.{record_number_of, sequence_of};
ghost use Rattle.capture_line.specs.Text.{ended, spaced, hex_digit, hex_pair, hex_pairs, name_text, named_text};

use crate::Text;
use file_name::FileName;
use file_reference::FileReference;

pub(crate) const SPACE: u8 = b' ';

pub(crate) const NEWLINE: u8 = b'\n';

/// Puts bytes behind the text.
pub(crate) fn push_all(text: &mut Text, bytes: &[u8])
    requires { array_vec_len text.old + length bytes.now ≤ 1084 }
    ensures text { text.new.items ≡ text.old.items ++ bytes.now }
    ensures long { array_vec_len text.new ≡ array_vec_len text.old + length bytes.now }
{
    let _ = text.try_extend_from_slice(bytes);
}

/// Puts a byte behind the text.
pub(crate) fn push_byte(text: &mut Text, byte: u8)
    requires { array_vec_len text.old < 1084 }
    ensures text { text.new.items ≡ text.old.items ++ byte ∷ [] }
    ensures long { array_vec_len text.new ≡ array_vec_len text.old + 1 }
{
    text.push(byte);
}

/// Puts a number behind the text, in decimal.
#[tactic(auto, using(crate::proofs::Decimals::few_digits))]
pub(crate) fn push_number(text: &mut Text, n: u64)
    requires { array_vec_len text.old + 20 ≤ 1084 }
    ensures text { text.new.items ≡ text.old.items ++ decimal n }
    ensures long { array_vec_len text.new ≤ array_vec_len text.old + 20 }
{
    push_digits(text, n);
}

/// Puts a number and a newline behind the text.
pub(crate) fn push_ended(text: &mut Text, n: u64)
    requires { array_vec_len text.old + 21 ≤ 1084 }
    ensures { text.new.items ≡ text.old.items ++ ended (decimal n) }
{
    push_number(text, n);
    push_byte(text, NEWLINE);
}

/// Puts the digits of a number behind the text, the highest first.
#[tactic(auto, using(crate::proofs::Decimals::some_digit, crate::proofs::Decimals::one_more_digit, crate::proofs::Decimals::last_digit, std::proofs::lemmas::Fmt::decimal_digit))]
fn push_digits(text: &mut Text, n: u64)
    requires { array_vec_len text.old + length (decimal n) ≤ 1084 }
    ensures text { text.new.items ≡ text.old.items ++ decimal n }
    ensures long { array_vec_len text.new ≡ array_vec_len text.old + length (decimal n) }
{
    if n < 10 {
        push_byte(text, b'0' + n as u8);
    } else {
        push_digits(text, n / 10);
        push_byte(text, b'0' + (n % 10) as u8);
    }
}

/// Puts a record number and a sequence behind the text, with a space behind each.
pub(crate) fn push_reference(text: &mut Text, file: FileReference)
    requires { array_vec_len text.old + 42 ≤ 1084 }
    ensures text { text.new.items ≡ text.old.items ++ decimal (record_number_of file) ++ spaced (decimal (sequence_of file) ++ 32 ∷ []) }
    ensures long { array_vec_len text.new ≤ array_vec_len text.old + 42 }
{
    push_number(text, file.file_record_number());
    push_byte(text, SPACE);
    push_number(text, u64::from(file.sequence_number()));
    push_byte(text, SPACE);
}

/// An upper-case hex digit.
fn hex_digit(digit: u8) -> u8
    requires { digit < 16 }
    ensures { result ≡ hex_digit digit }
{
    if digit < 10 {
        b'0' + digit
    } else {
        b'A' + (digit - 10)
    }
}

/// A unit as four hex digits. Its low byte stands first in the pair.
pub(crate) fn hex_digits(unit: [u8; 2]) -> [u8; 4]
    ensures { result ≡ hex_pair unit }
{
    let [low, high] = unit;
    [
        hex_digit(high / 16),
        hex_digit(high % 16),
        hex_digit(low / 16),
        hex_digit(low % 16),
    ]
}

/// Puts units behind the text, without gaps.
fn push_units(text: &mut Text, units: &[[u8; 2]])
    requires { array_vec_len text.old + 4 * length units.now ≤ 1084 }
    ensures text { text.new.items ≡ text.old.items ++ hex_pairs units.now }
    ensures long { array_vec_len text.new ≡ array_vec_len text.old + 4 * length units.now }
{
    for unit in units {
        push_all(text, &hex_digits(*unit));
    }
}

/// Puts a name's bytes behind the text: its units, or a point for one of none.
fn push_units_of(text: &mut Text, name: &[u8])
    requires short { length name.now ≤ 510 }
    requires room { array_vec_len text.old + 1020 ≤ 1084 }
    ensures text { text.new.items ≡ text.old.items ++ name_text name.now }
    ensures long { array_vec_len text.new ≤ array_vec_len text.old + 1020 }
{
    let (units, _) = name.as_chunks::<2>();
    if units.is_empty() {
        push_all(text, b".");
    } else {
        push_units(text, units);
    }
}

/// Puts the namespace and the name of an entry behind the text, or `- -` where there is no name to show.
pub(crate) fn push_name(text: &mut Text, name: Option<FileName>)
    requires short { IfSome name (λ name. length name.units.now ≤ 510) }
    requires room { array_vec_len text.old + 1041 ≤ 1084 }
    ensures text { text.new.items ≡ text.old.items ++ named_text name.exit }
    ensures long { array_vec_len text.new ≤ array_vec_len text.old + 1041 }
{
    match name {
        Some(name) => {
            push_number(text, name.namespace as u64);
            push_byte(text, SPACE);
            push_units_of(text, name.units);
        }
        None => push_all(text, b"- -"),
    }
}
