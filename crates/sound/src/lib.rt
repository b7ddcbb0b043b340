//! What it means that a directory has passed.
#![tactic(auto)]

ghost use Rattle.sound.specs.AnyDirectory.{CodeWalksSo, NoneLostInAnyDirectory, ReachedByPathInAnyDirectory, TreeListedInAnyDirectory};
ghost use Rattle.sound.specs.Found.{FoundIffListed, FoundOrNot};
ghost use Rattle.sound.specs.Pass.{Marks, MarksCleared, MarksUnchanged, Pass, ReachedByPath};
ghost use Rattle.sound.specs.Tree.{NoneLost, TreeListed};

/// A directory passes exactly if 19, 1 to 7 and 21 do not arise, it has at most 8 levels, every node reached is well formed, no record is reached twice,
/// and the names of its full listing never fall.
pub fn pass()
    ensures { Pass }
{}

/// The records reached are those that a path of entries leads to.
pub fn reached_by_path()
    ensures { ReachedByPath }
{}

/// A pass carries the count of the records reached. Each of them has the mark 1 then, each other record 0; bytes past the record count are as they were.
pub fn marks_after_a_pass()
    ensures { Marks }
{}

/// On 19, 1 to 7 and 21 the marks are unchanged, and the count is 0.
pub fn marks_unchanged()
    ensures { MarksUnchanged }
{}

/// On any later fault each record's mark is 0; bytes past the record count are as they were.
pub fn marks_after_a_fault()
    ensures { MarksCleared }
{}

/// In a directory that has passed, with an allowance of 7 or more, a lookup of a name of at most 255 units finds an entry that compares equal
/// exactly if the full listing holds one.
pub fn found_iff_listed()
    ensures { FoundIffListed }
{}

/// And otherwise it answers that there is none.
pub fn found_or_not()
    ensures { FoundOrNot }
{}

/// The full listing of a directory that is a finite tree yields the tree's entries, and ends.
pub fn tree_listed()
    ensures { TreeListed }
{}

/// Under any total order, in a tree whose names never fall, going down as a lookup does loses no equal entry.
pub fn none_lost()
    ensures { NoneLost }
{}

/// The records reached are those that a path of entries leads to, whatever functions give the directory.
pub fn reached_by_path_in_any_directory()
    ensures { ReachedByPathInAnyDirectory }
{}

/// The full listing of a tree yields the tree's entries, and ends, whatever functions give the directory.
pub fn tree_listed_in_any_directory()
    ensures { TreeListedInAnyDirectory }
{}

/// Under any total order, in a tree whose names never fall, going down as a lookup does loses no equal entry, whatever functions give the directory.
pub fn none_lost_in_any_directory()
    ensures { NoneLostInAnyDirectory }
{}

/// The code's listing, its lookup and the records that it reaches are those of one such directory.
pub fn code_walks_so()
    ensures { CodeWalksSo }
{}
