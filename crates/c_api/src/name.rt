ghost use Rattle.std.specs.Prelude.{◌≡◌};
ghost use Rattle.file_name.specs.FileName.{namespace_code};
ghost use Rattle.file_reference.specs.Reference.{reference_of};
ghost use Rattle.index_entry.specs.IndexEntry.{entry_bytes};
ghost use Rattle.c_api.specs.Words.{name_in, name_words, entry_name_words};
ghost use Rattle.c_api.specs.Seen.{named};

use crate::{NAMED, NONE, REFUSED};
use file_name::{FileName, Namespace};
use index_entry::IndexEntry;
use refusal::Refusal;

/// Where the name begins in an entry: after its 16 bytes of header, and 66 of the key.
const NAME_OFFSET: u64 = 82;

fn namespace_word(namespace: Namespace) -> u64
    ensures { result ≡ namespace_code namespace }
{
    namespace as u64
}

/// The name in an entry's key, if it has one; or 9, 18.
#[tactic(auto, using(crate::proofs::Names::of_keys))]
fn name_in<'a>(entry: &IndexEntry<'a>) -> Result<Option<FileName<'a>>, Refusal>
    ensures { named result ≡ name_in (entry_bytes entry.now) }
{
    let Some(key) = entry.key()? else {
        return Ok(None);
    };
    let name = FileName::try_from(key)?;
    Ok(Some(name))
}

/// Of a whole entry: its reference is told whatever its key.
fn name_words(entry: &IndexEntry) -> [u64; 7]
    ensures { result ≡ name_words (reference_of (entry_bytes entry.now)) (name_in (entry_bytes entry.now)) }
{
    let reference = entry.file_reference();
    let number = reference.file_record_number();
    let sequence = u64::from(reference.sequence_number());
    match name_in(entry) {
        Ok(Some(name)) => {
            let namespace = namespace_word(name.namespace);
            let units = (name.units.len() / 2) as u64;
            [NAMED, 0, number, sequence, namespace, NAME_OFFSET, units]
        }
        Ok(None) => [NONE, 0, number, sequence, 0, 0, 0],
        Err(refusal) => {
            let refusal = u64::from(refusal.number());
            [REFUSED, refusal, number, sequence, 0, 0, 0]
        }
    }
}

/// Of bytes that begin with an entry. Where they do not, no reference is told.
#[tactic(auto, unfolding(crate::specs::Words::entry_name_words))]
pub(crate) fn entry_name_words(bytes: &[u8]) -> [u64; 7]
    ensures { result ≡ entry_name_words bytes.now }
{
    match IndexEntry::new(bytes, 0) {
        Ok(entry) => name_words(&entry),
        Err(refusal) => [REFUSED, u64::from(refusal.number()), 0, 0, 0, 0, 0],
    }
}
