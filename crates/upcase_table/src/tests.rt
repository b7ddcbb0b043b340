//! A name whose units are told in turn alone is compared.

use super::*;

/// Maps each unit to itself.
struct Plain;

impl Upcase for Plain {
    ghost mapped = { λ table unit. unit };

    fn upcase(&self, unit: u16) -> u16 {
        unit
    }
}

/// Maps each unit to 7.
struct Seven;

impl Upcase for Seven {
    ghost mapped = { λ table unit. 7 };

    fn upcase(&self, _unit: u16) -> u16 {
        7
    }
}

/// A name whose units are told by `next_unit` alone.
#[derive(Drop)]
struct InTurn<'a>(&'a [u16]);

impl Units for InTurn<'_> {
    ghost units = { λ name. name.0.now };

    fn next_unit(&mut self) -> Option<u16> {
        let (first, rest) = self.0.split_first()?;
        self.0 = rest;
        Some(*first)
    }
}

#[test]
fn is_compared_unit_by_unit(rt: HostRuntime) {
    let name = || InTurn(&[65, 300]);
    let key = LeUnits::new;
    assert_eq!(rt;
        compare(&Plain, name(), key(&[65, 0, 44, 1])),
        Ordering::Equal
    );
    assert_eq!(rt;
        compare(&Plain, name(), key(&[65, 0, 1, 44])),
        Ordering::Less
    );
    assert_eq!(rt; compare(&Plain, name(), key(&[66])), Ordering::Greater);
    assert_eq!(rt; compare(&Plain, key(&[66, 0]), name()), Ordering::Greater);
    assert_eq!(rt; compare(&Seven, key(&[66, 0]), name()), Ordering::Less);
    assert_eq!(rt; compare(&Seven, name(), InTurn(&[66, 67])), Ordering::Equal);
}
