//! What a case changes is changed for its lender.

use super::*;

#[test]
fn what_is_lent_holds_the_case(rt: HostRuntime) {
    let mut memory = [9; 4];
    let mut table = [0; 3];
    let mut fixture = Fixture {
        memory: &mut memory,
        table: &mut table,
    };
    fixture.set_up(Setup::Memory, &[1, 2, 3]);
    fixture.set_up(Setup::LowerHalf, &[5, 1, 6, 0, 7]);
    assert_eq!(rt; memory, [1, 2, 3, 9]);
    assert_eq!(rt; table, [261, 6, 0]);
}
