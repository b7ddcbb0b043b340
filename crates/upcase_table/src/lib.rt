//! A volume's upcase table, 65,536 units of 16 bits, and the order of names under it.
#![tactic(auto)]

ghost use Rattle.std.specs.Prelude.{◌≡◌};
ghost use Rattle.upcase_table.specs.Names.{units_of, name_order, compared_names};

mod in_turn;
#[cfg(test)]
mod tests;
mod units;
mod upcase;
mod upcase_table;

pub use in_turn::compare;
use refusal::Refusal;
use std::cmp::Ordering;
pub use units::{LeUnits, Units, UnitsByPlace};
pub use upcase::Upcase;
pub use upcase_table::UpcaseTable;

#[tactic(auto, using(crate::proofs::Orders::of_names))]
/// How two names stand to each other that tell their units by place too. Each unit is mapped once. It answers what `compare` does, in less time.
// Its loop is the time of a lookup or check. By itself it is laid on a boundary of 16 bytes; inside its callers it is not, and can take half as long again.
#[inline(never)]
pub fn compare_by_place<T: Upcase, A: UnitsByPlace, B: UnitsByPlace>(
    table: &T,
    ours: A,
    theirs: B,
) -> Ordering
    ensures { result ≡ name_order (T.mapped table.now) (A.units ours) (B.units theirs) }
{
    let our_count = ours.unit_count();
    let their_count = theirs.unit_count();
    for place in 0..our_count.min(their_count) {
        let one = table.upcase(ours.unit_at(place));
        let two = table.upcase(theirs.unit_at(place));
        if one != two {
            return one.cmp(&two);
        }
    }
    our_count.cmp(&their_count)
}

/// The same under a table that is lent as it is; 19 if it has another length.
fn compare_under<A: UnitsByPlace, B: UnitsByPlace>(
    table: &[u16],
    ours: A,
    theirs: B,
) -> Result<Ordering, Refusal>
    ensures { result ≡ compared_names table.now (A.units ours) (B.units theirs) }
{
    let table = UpcaseTable::try_from(table)?;
    Ok(compare_by_place(&table, ours, theirs))
}

/// A sought name, lent as units, against a name in a key's bytes.
pub fn upcase_cmp(table: &[u16], name: &[u16], other: &[u8]) -> Result<Ordering, Refusal>
    ensures { result ≡ compared_names table.now name.now (units_of other.now) }
{
    compare_under(table, name, LeUnits::new(other))
}

/// Two names in keys' bytes.
pub fn upcase_cmp_keys(table: &[u16], name: &[u8], other: &[u8]) -> Result<Ordering, Refusal>
    ensures { result ≡ compared_names table.now (units_of name.now) (units_of other.now) }
{
    compare_under(table, LeUnits::new(name), LeUnits::new(other))
}
