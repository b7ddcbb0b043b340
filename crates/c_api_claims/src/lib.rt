//! What is promised of the numbers that cross to C and Rust, each a function without code whose clause is the promise.
#![tactic(auto)]

ghost use Rattle.c_api_claims.specs.Words.{NumbersName, NumbersRun, EntryNameNames, EntryNames};

/// The three numbers of an entry that is answered name its bytes.
pub fn numbers_name()
    ensures { NumbersName }
{}

/// Steps that hand a cursor's numbers on answer the listing.
pub fn numbers_run()
    ensures { NumbersRun }
{}

/// What ntfs_entry_name tells as a name is the name in the entry's key.
pub fn entry_name_names()
    ensures { EntryNameNames }
{}

/// What entries say of their names, by examples.
pub fn entry_names()
    ensures { EntryNames }
{}
