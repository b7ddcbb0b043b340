//! Keys of one number of 32 bits: a second kind of key, by which lookup and check are tried.
#![tactic(auto)]

ghost use Rattle.std.specs.Prelude.{◌≡◌};
ghost use Rattle.number_keys.specs.Numbers.{number_in};

use collation::Collation;
use refusal::Refusal;
use std::cmp::Ordering;

/// Numbers, the low byte first, in the order of numbers.
#[derive(Clone, Copy, Debug)]
pub struct NumberKeys;

/// The number in a key's first four bytes, or 18.
fn read_number(key: &[u8]) -> Result<u32, Refusal>
    ensures { result ≡ number_in key.now }
{
    if key.len() < 4 {
        return Err(Refusal::KeyUnreadable);
    }
    Ok(le::le32(key, 0))
}

impl Collation for NumberKeys {
    ghost use Rattle.number_keys.specs.Numbers.{as_name, numbers, number_order-total};

    type Sought = u32;

    ghost kind = { λ keys. numbers };

    ghost name = { as_name };

    ghost total = { λ keys. number_order-total };

    fn compare_sought(&self, sought: u32, key: &[u8]) -> Result<Ordering, Refusal> {
        Ok(sought.cmp(&read_number(key)?))
    }

    fn check_key(&self, key: &[u8]) -> Result<(), Refusal> {
        read_number(key)?;
        Ok(())
    }

    fn compare_keys(&self, key: &[u8], other: &[u8]) -> Result<Ordering, Refusal> {
        let number = read_number(key)?;
        Ok(number.cmp(&read_number(other)?))
    }
}

#[cfg(test)]
mod tests {
    use super::*;
    use checker::check;
    use directory::Directory;
    use index_finder::find;
    use refusal::Fault;

    /// A large root: the key 256 above the record at VCN 0, and a LAST_ENTRY.
    const ROOT: [u8; 80] = [
        0, 0, 0, 0, 0, 0, 0, 0, 0, 2, 0, 0, 0, 0, 0, 0, // records of 512 bytes
        16, 0, 0, 0, 64, 0, 0, 0, 64, 0, 0, 0, 1, 0, 0, 0, // entries from 32 to 80
        1, 0, 0, 0, 0, 0, 0, 0, 32, 0, 4, 0, 1, 0, 0, 0, // an entry of 32 bytes
        0, 1, 0, 0, 0, 0, 0, 0, 0, 0, 0, 0, 0, 0, 0, 0, // 256, VCN 0
        0, 0, 0, 0, 0, 0, 0, 0, 16, 0, 0, 0, 2, 0, 0, 0, // the LAST_ENTRY
    ];

    /// The record there begins so: the key 20, and a LAST_ENTRY. Its bytes, 20 first, are after those of 256.
    const RECORD: [u8; 80] = [
        73, 78, 68, 88, 0, 0, 0, 0, 0, 0, 0, 0, 0, 0, 0, 0, // INDX
        0, 0, 0, 0, 0, 0, 0, 0, 16, 0, 0, 0, 56, 0, 0, 0, // VCN 0, entries from 40 to 80
        232, 1, 0, 0, 0, 0, 0, 0, // allocated 488
        2, 0, 0, 0, 0, 0, 0, 0, 24, 0, 4, 0, 0, 0, 0, 0, // an entry of 24 bytes
        20, 0, 0, 0, 0, 0, 0, 0, // 20
        0, 0, 0, 0, 0, 0, 0, 0, 16, 0, 0, 0, 2, 0, 0, 0, // the LAST_ENTRY
    ];

    fn pool() -> [u8; 512] {
        let mut pool = [0; 512];
        pool[..80].copy_from_slice(&RECORD);
        pool
    }

    #[test]
    fn is_checked_and_looked_up(rt: HostRuntime) {
        let pool = pool();
        let directory = Directory {
            root: &ROOT,
            pool: &pool,
            cluster_size: 512,
        };
        let mut marks = [7, 7];
        assert_eq!(rt; check(&directory, &NumberKeys, &mut marks), Ok(1));
        assert_eq!(rt; marks, [1, 7]);
        let wanted = [
            (20, Some(40), 1),
            (256, Some(32), 0),
            (21, None, 1),
            (257, None, 0),
        ];
        for (number, at, opened) in wanted {
            let answer = find(&directory, &NumberKeys, number, 1);
            let found = answer.map(|answer| (answer.entry.map(|it| it.at), answer.opened));
            assert_eq!(rt; found, Ok((at, opened)), "at {number}");
        }
    }

    #[test]
    fn a_shorter_key_is_refused(rt: HostRuntime) {
        let mut root = ROOT;
        root[42] = 3;
        let pool = pool();
        let directory = Directory {
            root: &root,
            pool: &pool,
            cluster_size: 512,
        };
        let fault = Fault {
            refusal: Refusal::KeyUnreadable,
            opened: 0,
        };
        let mut marks = [7];
        assert_eq!(rt; check(&directory, &NumberKeys, &mut marks), Err(fault));
        assert_eq!(rt; marks, [0]);
        assert_eq!(rt; find(&directory, &NumberKeys, 20, 1).err(), Some(fault));
    }
}
