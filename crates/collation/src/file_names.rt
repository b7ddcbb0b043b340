ghost use Rattle.std.specs.Prelude.{◌≤◌, length};

use crate::collation::Collation;
use file_name::FileName;
use refusal::Refusal;
use std::cmp::Ordering;
use upcase_table::{LeUnits, Upcase, compare_by_place};

/// The longest name, in units.
const MOST_UNITS: usize = 255;

/// A file name that is sought, as units.
#[derive(Clone, Copy, Debug)]
pub struct SoughtName<'a> {
    units: &'a [u16],
    ghost short: { length units.now ≤ 255 },
}

impl<'a> TryFrom<&'a [u16]> for SoughtName<'a> {
    ghost use Rattle.collation.specs.Names.{IsSoughtName};

    type Error = Refusal;

    ghost try_from_gives = { IsSoughtName };

    fn try_from(units: &'a [u16]) -> Result<SoughtName<'a>, Refusal> {
        if units.len() > MOST_UNITS {
            return Err(Refusal::NameTooLong);
        }
        Ok(SoughtName { units })
    }
}

/// File names, in the order of an upcase table.
#[derive(Clone, Copy, Debug)]
pub struct FileNames<'a, T: Upcase> {
    pub table: &'a T,
}

impl<'a, T: Upcase> Collation for FileNames<'a, T> {
    ghost use Rattle.collation.specs.Names.{file_names, sought_units};
    ghost use Rattle.upcase_table.specs.Names.{name_order-total};

    type Sought = SoughtName<'a>;

    ghost kind = { λ names. file_names (T.mapped names.table.now) };

    ghost name = { sought_units };

    ghost total = { λ names. name_order-total (T.mapped names.table.now) };

    fn compare_sought(&self, sought: SoughtName<'a>, key: &[u8]) -> Result<Ordering, Refusal> {
        let name = FileName::try_from(key)?;
        Ok(compare_by_place(self.table, sought.units, LeUnits::new(name.units)))
    }

    fn check_key(&self, key: &[u8]) -> Result<(), Refusal> {
        FileName::try_from(key)?;
        Ok(())
    }

    fn compare_keys(&self, key: &[u8], other: &[u8]) -> Result<Ordering, Refusal> {
        let name = FileName::try_from(key)?;
        let other = FileName::try_from(other)?;
        Ok(compare_by_place(
            self.table,
            LeUnits::new(name.units),
            LeUnits::new(other.units),
        ))
    }
}
