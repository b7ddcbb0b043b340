//! What is promised of the whole, each a function without code whose clause is the promise.
#![tactic(auto)]

ghost use Rattle.claims.specs.Bench.{Bench};
ghost use Rattle.claims.specs.Capture.{AnyNumberOfRecords};
ghost use Rattle.claims.specs.Checks.{Checks};
ghost use Rattle.claims.specs.Leaves.{EntryAsLong, NamesTotal, ReferenceSplit};
ghost use Rattle.claims.specs.Listing.{FullListing, MoreAllowance, Run};
ghost use Rattle.claims.specs.Lookup.{Lookups, MoreForLookup};
ghost use Rattle.claims.specs.Nodes.{OneVcn, PlaceIsEntry, RecordInPool};

/// P1 to P12, as one table.
#[tactic(auto, using(crate::proofs::Examples::bench))]
pub fn bench()
    ensures { Bench }
{}

/// What lookup answers in the tree of P12 and beside it.
#[tactic(auto, using(crate::proofs::Examples::lookups))]
pub fn lookups()
    ensures { Lookups }
{}

/// What the checker answers there, with the marks.
#[tactic(auto, using(crate::proofs::Examples::checks))]
pub fn checks()
    ensures { Checks }
{}

/// Under every table the order of names is total.
pub fn names_are_total()
    ensures { NamesTotal }
{}

/// An entry's bytes are as many as its length field says.
#[tactic(auto, using(crate::proofs::Leaves::as_long))]
pub fn entry_as_long()
    ensures { EntryAsLong }
{}

/// A record number is the first six bytes of a reference, its sequence the next two.
pub fn reference_split()
    ensures { ReferenceSplit }
{}

/// A record that a VCN leads to lies whole in the pool, at a multiple of the record size, where the VCN says.
#[tactic(auto, using(crate::proofs::Nodes::in_pool))]
pub fn record_in_pool()
    ensures { RecordInPool }
{}

/// One record has one VCN.
#[tactic(auto, using(crate::proofs::Nodes::one_vcn))]
pub fn one_record_one_vcn()
    ensures { OneVcn }
{}

/// The bytes handed out with an entry's place are the entry that stands there.
pub fn place_names_entry()
    ensures { PlaceIsEntry }
{}

/// Over memory that does not change, the steps from a new cursor answer the listing, and then its ending for ever.
#[tactic(auto, using(index_run::proofs::Running::steps_are_the_listing))]
pub fn run()
    ensures { Run }
{}

/// Of the steps' answers any but 12 is the same under any larger allowance.
pub fn more_allowance()
    ensures { MoreAllowance }
{}

/// And in the full listing.
pub fn full_listing()
    ensures { FullListing }
{}

/// What a lookup answers, other than 12, is the same under any larger allowance.
#[tactic(auto, using(crate::proofs::Lookup::by_name))]
pub fn more_for_lookup()
    ensures { MoreForLookup }
{}

/// The number of records refuses no capture: those that were written are read back.
#[tactic(auto, using(crate::proofs::Capture::any_number_of_records))]
pub fn any_number_of_records()
    ensures { AnyNumberOfRecords }
{}
