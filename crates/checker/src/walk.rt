ghost use Rattle.std.specs.Prelude.{◌≡◌, ◌<◌, ◌≤◌, ◌+◌, ◌^◌, length, drop, OnOk, IfOk, OnSome, Ok};
ghost use Rattle.index_entry.specs.IndexEntry.{entry_bytes, lent as lent_key};
ghost use Rattle.directory.specs.Directory.{records_in};
ghost use Rattle.directory.specs.Seen.{lent, directory_seen, node_seen};
ghost use Rattle.checker.specs.Check.{key_in, judge_at, falls, reach, reach_below, check_from, check, cleared, check_root};
ghost use Rattle.checker.specs.FileNames.{check_file_names};
ghost use Rattle.checker.specs.State.{state, key_kept, judged, came_out, reached, reached_below, unmarked, checked};

use collation::{Collation, FileNames};
use directory::{Directory, LEVELS, Node, OpenDirectory};
use index_entry::IndexEntry;
use refusal::{Fault, Refusal};
use std::cmp::Ordering;
use upcase_table::UpcaseTable;

/// How far a check has come.
#[derive(Clone, Copy, Debug)]
pub(crate) struct Progress<'a> {
    opened: u64,
    /// The key that was listed last.
    latest: Option<&'a [u8]>,
}

/// The key of an entry that ends at `ends`: a LAST_ENTRY has none, each other has to have one that can be read.
#[tactic(auto, unfolding(crate::specs::Check::key_in))]
fn key_in<'a, C: Collation>(
    collation: &C,
    used: usize,
    ends: usize,
    entry: &IndexEntry<'a>,
) -> Result<Option<&'a [u8]>, Refusal>
    ensures { lent_key result ≡ key_in (C.kind collation.now) used ends (entry_bytes entry.now) }
{
    if ends > used {
        return Err(Refusal::NodeEnd);
    }
    if entry.is_last_entry() {
        if ends != used {
            return Err(Refusal::NodeEnd);
        }
        return Ok(None);
    }
    let key = entry.key()?.ok_or(Refusal::KeyMissing)?;
    collation.check_key(key)?;
    Ok(Some(key))
}

/// An entry that was judged by itself.
#[derive(Clone, Copy, Debug)]
pub(crate) struct JudgedEntry<'a> {
    ends: usize,
    key: Option<&'a [u8]>,
    vcn: Option<i64>,
}

/// What stands at a position of a node, judged by itself: 23 where the node has run out, 8, 23, 24, 9, 18, and 9 for the VCN.
#[tactic(auto, unfolding(crate::specs::Check::judge, crate::specs::Check::judge_at))]
fn judge<'a, C: Collation>(
    collation: &C,
    node: &Node<'a>,
    at: usize,
) -> Result<JudgedEntry<'a>, Refusal>
    ensures is { judged result ≡ judge_at (C.kind collation.now) (node_seen node.now) at }
    ensures further { IfOk result (λ entry. at < entry.ends) }
    ensures inside { IfOk result (λ entry. entry.ends ≤ length node.now.bytes.now) }
{
    let entry = node.entry_at(at).ok_or(Refusal::NodeEnd)??.entry;
    let ends = at + entry.bytes.len();
    let key = key_in(collation, node.end, ends, &entry)?;
    let vcn = entry.subnode_vcn()?;
    Ok(JudgedEntry { ends, key, vcn })
}

/// Whether a key's name is less than the one that was listed before it.
#[tactic(auto, unfolding(crate::specs::Check::falls))]
fn falls<C: Collation>(collation: &C, latest: Option<&[u8]>, key: &[u8]) -> bool
    ensures { result ≡ falls (C.kind collation.now) (key_kept latest.entry) key.now }
{
    match latest {
        Some(before) => collation.compare_keys(key, before) == Ok(Ordering::Less),
        None => false,
    }
}

/// Opens the record that is a subnode, if it has not been reached before.
#[tactic(auto, unfolding(crate::specs::Check::reach), using(crate::proofs::Marks::of_marks))]
fn reach<'a>(
    directory: &OpenDirectory<'a>,
    marks: &mut [u8],
    progress: &mut Progress,
    left: usize,
    vcn: i64,
) -> Result<Node<'a>, Refusal>
    requires marks { records_in (directory_seen directory.now).allocation ≤ length marks.old }
    requires room { progress.old.opened + unmarked marks.old < 2 ^ 64 }
    ensures is { reached result marks.new progress.new ≡ reach (directory_seen directory.now) left vcn (state marks.old progress.old) }
    ensures room { progress.new.opened + unmarked marks.new < 2 ^ 64 }
    ensures past { drop (records_in (directory_seen directory.now).allocation) marks.new
        ≡ drop (records_in (directory_seen directory.now).allocation) marks.old }
    ensures left { OnOk result (0 < left) }
{
    let placed = directory.place(left, false, vcn)?;
    let number = placed.number;
    if marks[number] != 0 {
        return Err(Refusal::ReachedTwice);
    }
    let node = Node::read(placed)?;
    marks[number] = 1;
    progress.opened += 1;
    Ok(node)
}

/// Opens an entry's subnode, if it has one.
#[tactic(auto, unfolding(crate::specs::Check::reach_below))]
fn reach_below<'a>(
    directory: &OpenDirectory<'a>,
    marks: &mut [u8],
    progress: &mut Progress,
    left: usize,
    vcn: Option<i64>,
) -> Result<Option<Node<'a>>, Refusal>
    requires marks { records_in (directory_seen directory.now).allocation ≤ length marks.old }
    requires room { progress.old.opened + unmarked marks.old < 2 ^ 64 }
    ensures is { reached_below result marks.new progress.new
        ≡ reach_below (directory_seen directory.now) left vcn (state marks.old progress.old) }
    ensures room { progress.new.opened + unmarked marks.new < 2 ^ 64 }
    ensures past { drop (records_in (directory_seen directory.now).allocation) marks.new
        ≡ drop (records_in (directory_seen directory.now).allocation) marks.old }
    ensures left { IfOk result (λ node. OnSome node (0 < left)) }
{
    let Some(vcn) = vcn else {
        return Ok(None);
    };
    let node = reach(directory, marks, progress, left, vcn)?;
    Ok(Some(node))
}

/// Checks a node and what is below it, where so many levels are left.
#[tactic(auto, using(crate::proofs::Laws::of_check))]
fn check_node<'a, C: Collation>(
    directory: &OpenDirectory<'a>,
    collation: &C,
    marks: &mut [u8],
    progress: &mut Progress<'a>,
    left: usize,
    node: Node<'a>,
) -> Result<(), Refusal>
    requires marks { records_in (directory_seen directory.now).allocation ≤ length marks.old }
    requires room { progress.old.opened + unmarked marks.old < 2 ^ 64 }
    ensures is { came_out result marks.new progress.new
        ≡ check_from (directory_seen directory.now) (C.kind collation.now) left (node_seen node.entry) node.entry.start
        (state marks.old progress.old) }
    ensures room { progress.new.opened + unmarked marks.new < 2 ^ 64 }
    ensures past { drop (records_in (directory_seen directory.now).allocation) marks.new
        ≡ drop (records_in (directory_seen directory.now).allocation) marks.old }
{
    let mut at = node.start;
    'entries: loop {
        let entry = judge(collation, &node, at)?;
        if let Some(below) = reach_below(directory, marks, progress, left, entry.vcn)? {
            check_node(directory, collation, marks, progress, left - 1, below)?;
        }
        let Some(key) = entry.key else {
            return Ok(());
        };
        if falls(collation, progress.latest, key) {
            return Err(Refusal::NameFalls);
        }
        progress.latest = Some(key);
        at = entry.ends;
    }
}

/// Takes the marks of all records away.
fn clear(marks: &mut [u8], records: usize)
    requires { records ≤ length marks.old }
    ensures { marks.new ≡ cleared records marks.old }
{
    marks[..records].fill(0);
}

/// Checks a directory that was opened: 21, then the walk from its root. After a fault in the walk no record has a mark.
#[tactic(auto, using(crate::proofs::Marks::of_cleared))]
fn check_open<C: Collation>(
    directory: &OpenDirectory,
    collation: &C,
    marks: &mut [u8],
) -> Result<u64, Fault>
    ensures { checked result marks.new ≡ check_root (C.kind collation.now) marks.old (Ok (directory_seen directory.now)) }
{
    let records = directory.records();
    if marks.len() < records {
        return Err(Fault {
            refusal: Refusal::MarksTooShort,
            opened: 0,
        });
    }
    clear(marks, records);
    let mut progress = Progress {
        opened: 0,
        latest: None,
    };
    let root = directory.root_node();
    let checked = check_node(directory, collation, marks, &mut progress, LEVELS - 1, root);
    let opened = progress.opened;
    match checked {
        Ok(()) => Ok(opened),
        Err(refusal) => {
            clear(marks, records);
            Err(Fault { refusal, opened })
        }
    }
}

/// Checks a whole directory: 1 to 7, 21, then its walk.
///
/// On a pass each record that was reached has a mark, and no other; after a fault in the walk none has.
#[tactic(auto, unfolding(crate::specs::Check::check))]
pub fn check<C: Collation>(
    directory: &Directory,
    collation: &C,
    marks: &mut [u8],
) -> Result<u64, Fault>
    ensures { checked result marks.new ≡ check (lent directory.now) (C.kind collation.now) marks.old }
{
    let directory = directory
        .open()
        .map_err(|refusal| Fault { refusal, opened: 0 })?;
    check_open(&directory, collation, marks)
}

/// Checks a directory of file names, in the order of a lent upcase table: 19, 1 to 7, 21, then its walk.
#[tactic(auto, unfolding(crate::specs::FileNames::check_file_names))]
pub fn check_file_names(
    directory: &Directory,
    table: &[u16],
    marks: &mut [u8],
) -> Result<u64, Fault>
    ensures { checked result marks.new ≡ check_file_names (lent directory.now) table.now marks.old }
{
    match UpcaseTable::try_from(table) {
        Ok(table) => check(directory, &FileNames { table: &table }, marks),
        Err(refusal) => Err(Fault { refusal, opened: 0 }),
    }
}
