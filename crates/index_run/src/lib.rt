//! What the steps of a listing come to.
#![tactic(auto)]

ghost use Rattle.index_run.specs.More.{FullListing, MoreChangesNothing};
ghost use Rattle.index_run.specs.Run.{StepsAreTheListing};

/// Over memory that does not change, the answer of each step is what the listing says there: its entries one after another, and then its ending for ever.
pub fn steps_are_the_listing()
    ensures { StepsAreTheListing }
{}

/// Of the steps' answers any but 12 is the same under any larger allowance.
pub fn more_changes_nothing()
    ensures { MoreChangesNothing }
{}

/// Of the steps' answers any but 12 is the same in the full listing, whose allowance is never spent.
pub fn full_listing()
    ensures { FullListing }
{}
