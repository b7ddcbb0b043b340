//! The functions of c_api under their names for C, each with the contract of the function that it calls. include/ntfs_index.h tells them to a C caller.
#![tactic(auto)]

ghost use Rattle.std.specs.Prelude.{◌≡◌};
ghost use Rattle.checker.specs.FileNames.{check_file_names};
ghost use Rattle.directory.specs.Directory.{spent_at};
ghost use Rattle.index.specs.Cursor.{new_cursor};
ghost use Rattle.index_finder.specs.FileNames.{find_file_name};
ghost use Rattle.c_api.specs.Words.{lent_as, step_by_words, answer_words, verdict_words, cursor_words, entry_name_words};

use c_api::WORDS;

/// A listing that has not begun.
#[unsafe(no_mangle)]
pub extern "C" fn ntfs_new_cursor(cursor: &mut [u64; WORDS])
    ensures { cursor.new ≡ cursor_words new_cursor }
{
    c_api::ntfs_new_cursor(cursor);
}

/// One step of a listing: its answer, and the cursor to go on with.
#[unsafe(no_mangle)]
pub extern "C" fn ntfs_step<'a>(
    root: &'a [u8],
    pool: &'a [u8],
    cluster: usize,
    allowance: u64,
    cursor: &mut [u64; WORDS],
    answer: &mut [u64; 6],
)
    ensures cursor_after { cursor.new ≡ cursor_words (step_by_words (lent_as root.now pool.now cluster) (spent_at allowance) cursor.old).cursor }
    ensures answer_after { let d = lent_as root.now pool.now cluster in answer.new ≡ answer_words d (step_by_words d (spent_at allowance) cursor.old).answer }
{
    c_api::ntfs_step(root, pool, cluster, allowance, cursor, answer);
}

/// Lookup of a name under an upcase table.
#[unsafe(no_mangle)]
pub extern "C" fn ntfs_find<'a>(
    root: &'a [u8],
    pool: &'a [u8],
    cluster: usize,
    table: &[u16],
    name: &[u16],
    allowance: u64,
    answer: &mut [u64; 6],
)
    ensures { let d = lent_as root.now pool.now cluster in answer.new ≡ answer_words d (find_file_name d (spent_at allowance) table.now name.now) }
{
    c_api::ntfs_find(root, pool, cluster, table, name, allowance, answer);
}

/// The checker: a pass or the first fault, and a mark for each record.
#[unsafe(no_mangle)]
pub extern "C" fn ntfs_check<'a>(
    root: &'a [u8],
    pool: &'a [u8],
    cluster: usize,
    table: &[u16],
    marks: &mut [u8],
    answer: &mut [u64; 3],
)
    ensures marks_after { marks.new ≡ (check_file_names (lent_as root.now pool.now cluster) table.now marks.old).marks }
    ensures answer_after { answer.new ≡ verdict_words (check_file_names (lent_as root.now pool.now cluster) table.now marks.old).verdict }
{
    c_api::ntfs_check(root, pool, cluster, table, marks, answer);
}

/// What the bytes of an entry say of its file reference and its name.
#[unsafe(no_mangle)]
pub extern "C" fn ntfs_entry_name(entry: &[u8], answer: &mut [u64; 7])
    ensures { answer.new ≡ entry_name_words entry.now }
{
    c_api::ntfs_entry_name(entry, answer);
}
