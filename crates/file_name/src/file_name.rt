use refusal::Refusal;

/// Where the name of a key begins: its length in units, and its namespace, stand right before.
const NAME_OFFSET: usize = 66;

/// Which rules a name keeps. Its number is its discriminant.
#[derive(Clone, Copy, Debug, PartialEq, Eq)]
pub enum Namespace {
    Posix = 0,
    Win32 = 1,
    Dos = 2,
    Win32AndDos = 3,
}

/// A file name: that very part of a key's bytes.
#[derive(Clone, Copy, Debug, PartialEq, Eq)]
pub struct FileName<'a> {
    pub namespace: Namespace,
    /// Its units of 16 bits, the low byte of each first.
    pub units: &'a [u8],
}

impl<'a> TryFrom<&'a [u8]> for FileName<'a> {
    ghost use Rattle.file_name.specs.FileName.{IsReadFrom};

    type Error = Refusal;

    ghost try_from_gives = { IsReadFrom };

    fn try_from(key: &'a [u8]) -> Result<FileName<'a>, Refusal> {
        if key.len() < NAME_OFFSET {
            return Err(Refusal::KeyUnreadable);
        }
        let namespace = match key[65] {
            0 => Namespace::Posix,
            1 => Namespace::Win32,
            2 => Namespace::Dos,
            3 => Namespace::Win32AndDos,
            _ => return Err(Refusal::KeyUnreadable),
        };
        let end = NAME_OFFSET + 2 * usize::from(key[64]);
        let units = key.get(NAME_OFFSET..end).ok_or(Refusal::KeyUnreadable)?;
        Ok(FileName { namespace, units })
    }
}
