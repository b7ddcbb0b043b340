//! The library for C and Rust: numbers and lent slices in, the answer as numbers in a lent array. include/ntfs_index.h tells it to a C caller.
#![tactic(auto)]

ghost use Rattle.std.specs.Prelude.{◌≡◌};
ghost use Rattle.checker.specs.FileNames.{check_file_names};
ghost use Rattle.directory.specs.Directory.{spent_at};
ghost use Rattle.index.specs.Cursor.{new_cursor};
ghost use Rattle.index_finder.specs.FileNames.{find_file_name};
ghost use Rattle.c_api.specs.Words.{lent_as, step_by_words, answer_words, verdict_words, cursor_words, entry_name_words};

mod answer;
mod cursor;
mod name;

use crate::answer::{answer_words, verdict_words};
use crate::cursor::{cursor_from, cursor_words};
use crate::name::entry_name_words;
use directory::Directory;
use index::Cursor;

/// Numbers of a cursor: depth, opened, refusal kept, and five for each of eight levels.
pub const WORDS: usize = 43;

/// The end of a listing, a name that was not found, or an entry without a key.
const NONE: u64 = 0;

const ENTRY: u64 = 1;

const PASSED: u64 = 1;

const NAMED: u64 = 1;

const REFUSED: u64 = 2;

/// The slice that holds an entry.
const ROOT: u64 = 0;

const POOL: u64 = 1;

/// A listing that has not begun.
pub fn ntfs_new_cursor(cursor: &mut [u64; WORDS])
    ensures { cursor.new ≡ cursor_words new_cursor }
{
    *cursor = cursor_words(&Cursor::new());
}

/// One step of a listing: its answer, and the cursor to go on with.
#[tactic(auto, using(crate::proofs::Lies::of_answers))]
pub fn ntfs_step<'a>(
    root: &'a [u8],
    pool: &'a [u8],
    cluster: usize,
    allowance: u64,
    cursor: &mut [u64; WORDS],
    answer: &mut [u64; 6],
)
    ensures cursor_after { cursor.new ≡ cursor_words (step_by_words (lent_as root.now pool.now cluster) (spent_at allowance) cursor.old).cursor }
    ensures answer_after { let d = lent_as root.now pool.now cluster in answer.new ≡ answer_words d (step_by_words d (spent_at allowance) cursor.old).answer }
{
    let directory = Directory {
        root,
        pool,
        cluster_size: cluster,
    };
    let mut listing = cursor_from(cursor);
    let told = listing.step(&directory, allowance);
    *answer = answer_words(&directory, &told);
    *cursor = cursor_words(&listing);
}

/// Lookup of a name under an upcase table.
#[tactic(auto, using(crate::proofs::Lies::of_answers))]
pub fn ntfs_find<'a>(
    root: &'a [u8],
    pool: &'a [u8],
    cluster: usize,
    table: &[u16],
    name: &[u16],
    allowance: u64,
    answer: &mut [u64; 6],
)
    ensures { let d = lent_as root.now pool.now cluster in answer.new ≡ answer_words d (find_file_name d (spent_at allowance) table.now name.now) }
{
    let directory = Directory {
        root,
        pool,
        cluster_size: cluster,
    };
    let found = index_finder::find_file_name(&directory, table, name, allowance);
    *answer = answer_words(&directory, &found);
}

/// The checker: a pass or the first fault, and a mark for each record.
pub fn ntfs_check<'a>(
    root: &'a [u8],
    pool: &'a [u8],
    cluster: usize,
    table: &[u16],
    marks: &mut [u8],
    answer: &mut [u64; 3],
)
    ensures marks_after { marks.new ≡ (check_file_names (lent_as root.now pool.now cluster) table.now marks.old).marks }
    ensures answer_after { answer.new ≡ verdict_words (check_file_names (lent_as root.now pool.now cluster) table.now marks.old).verdict }
{
    let directory = Directory {
        root,
        pool,
        cluster_size: cluster,
    };
    let verdict = checker::check_file_names(&directory, table, marks);
    *answer = verdict_words(verdict);
}

/// What the bytes of an entry say of its file reference and its name.
pub fn ntfs_entry_name(entry: &[u8], answer: &mut [u64; 7])
    ensures { answer.new ≡ entry_name_words entry.now }
{
    *answer = entry_name_words(entry);
}
