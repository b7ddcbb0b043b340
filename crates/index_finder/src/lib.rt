//! Looking a name up, down from the root.
#![tactic(auto)]

ghost use Rattle.std.specs.Prelude.{◌≡◌};
ghost use Rattle.directory.specs.Directory.{spent_at};
ghost use Rattle.directory.specs.Limits.{below_root};
ghost use Rattle.directory.specs.Node.{entries_of};
ghost use Rattle.directory.specs.Seen.{lent, directory_seen, node_seen, told, answer_seen};
ghost use Rattle.index_entry.specs.IndexEntry.{entry_bytes};
ghost use Rattle.index_finder.specs.Allowance.{MoreChangesNothing};
ghost use Rattle.index_finder.specs.FileNames.{find_file_name};
ghost use Rattle.index_finder.specs.Find.{stands, find, find_below};

use collation::{Collation, FileNames, SoughtName};
use directory::{Answer, Directory, LEVELS, Node, OpenDirectory, PlacedEntry};
use index_entry::IndexEntry;
use refusal::{Fault, Refusal};
use std::cmp::Ordering;
use upcase_table::UpcaseTable;

#[tactic(auto, unfolding(crate::specs::Find::stands))]
/// How the sought name stands to an entry. One without a key is after all names.
fn stands<C: Collation>(
    collation: &C,
    sought: C::Sought,
    entry: &IndexEntry,
) -> Result<Ordering, Refusal>
    ensures { result ≡ stands (C.kind collation.now) (C.name sought) (entry_bytes entry.now) }
{
    let Some(key) = entry.key()? else {
        return Ok(Ordering::Less);
    };
    collation.compare_sought(sought, key)
}

/// Looks in a node and below it, down to the last level.
#[tactic(auto, using(crate::proofs::Laws::of_find))]
fn find_below<'a, C: Collation>(
    directory: &OpenDirectory<'a>,
    collation: &C,
    sought: C::Sought,
    allowance: u64,
    top: Node<'a>,
    opened: &mut u64,
) -> Result<Option<PlacedEntry<'a>>, Refusal>
    ensures { told result opened.new
        ≡ find_below (directory_seen directory.now) (spent_at allowance) (C.kind collation.now) (C.name sought)
        below_root (entries_of (node_seen top.entry)) opened.old }
{
    let mut node = top;
    let mut left = LEVELS - 1;
    'levels: loop {
        for entry in node.entries() {
            let placed = entry?;
            match stands(collation, sought, &placed.entry)? {
                Ordering::Equal => return Ok(Some(placed)),
                Ordering::Greater => continue,
                Ordering::Less => {}
            }
            let Some(below) = directory.open_below(left, *opened >= allowance, &placed.entry)?
            else {
                return Ok(None);
            };
            node = below;
            *opened += 1;
            left -= 1;
            continue 'levels;
        }
        return Ok(None);
    }
}

#[tactic(auto, unfolding(crate::specs::Find::find))]
/// Looks a name up: 1 to 7, then the walk.
pub fn find<'a, C: Collation>(
    directory: &Directory<'a>,
    collation: &C,
    sought: C::Sought,
    allowance: u64,
) -> Result<Answer<'a>, Fault>
    ensures { answer_seen result ≡ find (lent directory.now) (spent_at allowance) (C.kind collation.now) (C.name sought) }
{
    let mut opened = 0;
    let directory = match directory.open() {
        Ok(directory) => directory,
        Err(refusal) => return Err(Fault { refusal, opened }),
    };
    let root = directory.root_node();
    let found = find_below(&directory, collation, sought, allowance, root, &mut opened);
    Answer::told(found, opened)
}

#[tactic(auto, unfolding(crate::specs::FileNames::find_file_name))]
/// Looks a file name up, in the order of a lent upcase table: 19, 20, 1 to 7, then the walk.
pub fn find_file_name<'a>(
    directory: &Directory<'a>,
    table: &[u16],
    name: &[u16],
    allowance: u64,
) -> Result<Answer<'a>, Fault>
    ensures { answer_seen result ≡ find_file_name (lent directory.now) (spent_at allowance) table.now name.now }
{
    let table = match UpcaseTable::try_from(table) {
        Ok(table) => table,
        Err(refusal) => return Err(Fault { refusal, opened: 0 }),
    };
    match SoughtName::try_from(name) {
        Ok(sought) => find(directory, &FileNames { table: &table }, sought, allowance),
        Err(refusal) => Err(Fault { refusal, opened: 0 }),
    }
}

/// An answer other than 12 is the same under any larger allowance, whatever the keys are.
pub fn more_changes_nothing<K>()
    ensures { MoreChangesNothing K }
{}
