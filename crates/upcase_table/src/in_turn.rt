ghost use Rattle.std.specs.Prelude.{◌≡◌};
ghost use Rattle.upcase_table.specs.Names.{name_order};

use crate::units::Units;
use crate::upcase::Upcase;
use std::cmp::Ordering;

/// How two names stand to each other. Each unit is mapped once.
pub fn compare<T: Upcase, A: Units, B: Units>(table: &T, ours: A, theirs: B) -> Ordering
    ensures { result ≡ name_order (T.mapped table.now) (A.units ours) (B.units theirs) }
{
    let mut ours = ours;
    let mut theirs = theirs;
    while let Some(one) = ours.next_unit() {
        let Some(two) = theirs.next_unit() else {
            return Ordering::Greater;
        };
        let one = table.upcase(one);
        let two = table.upcase(two);
        if one != two {
            return one.cmp(&two);
        }
    }
    if theirs.next_unit().is_some() {
        Ordering::Less
    } else {
        Ordering::Equal
    }
}
