ghost use Rattle.std.specs.Prelude.{◌≡◌, ◌≤◌, ◌<◌, ◌+◌, ◌*◌};
ghost use Rattle.c_api.specs.Words.{node_from, stage_from, kept_word, kept_from, level_words, level_start, level_from, cursor_words, cursor_from};

use crate::WORDS;
use directory::LEVELS;
use index::{Cursor, Level, NodeName, Stage};
use refusal::Refusal;

/// Numbers before those of the levels: depth, opened, refusal kept.
const BEFORE_LEVELS: usize = 3;

/// Numbers of a level: node, VCN, next start, stage, start of the entry put off.
const LEVEL_WORDS: usize = 5;

fn node_from(node: u64, vcn: u64) -> NodeName
    ensures { result ≡ node_from node vcn }
{
    match node {
        0 => NodeName::Root,
        _ => NodeName::Record(vcn.cast_signed()),
    }
}

fn stage_from(stage: u64, due: u64) -> Stage
    ensures { result ≡ stage_from stage due }
{
    match stage {
        0 => Stage::Fresh,
        1 => Stage::Going,
        2 => Stage::Due(due as usize),
        _ => Stage::Ended,
    }
}

/// A number that no refusal has keeps none.
#[tactic(auto, using(crate::proofs::Kept::of_numbers))]
fn kept_from(number: u64) -> Option<Refusal>
    ensures { result ≡ kept_from number }
{
    let number = u8::try_from(number).ok()?;
    Refusal::try_from(number).ok()
}

fn kept_word(kept: Option<Refusal>) -> u64
    ensures { result ≡ kept_word kept }
{
    match kept {
        Some(refusal) => u64::from(refusal.number()),
        None => 0,
    }
}

fn level_words(level: &Level) -> [u64; LEVEL_WORDS]
    ensures { result ≡ level_words level.now }
{
    let (node, vcn) = match level.node {
        NodeName::Root => (0, 0),
        NodeName::Record(vcn) => (1, vcn.cast_unsigned()),
    };
    let (stage, due) = match level.stage {
        Stage::Fresh => (0, 0),
        Stage::Going => (1, 0),
        Stage::Due(at) => (2, at as u64),
        Stage::Ended => (3, 0),
    };
    [node, vcn, level.next as u64, stage, due]
}

fn level_from(words: &[u64; WORDS], at: usize) -> Level
    requires { at < 8 }
    ensures { result ≡ level_from words.now (level_start at) }
{
    let start = BEFORE_LEVELS + LEVEL_WORDS * at;
    Level {
        node: node_from(words[start], words[start + 1]),
        next: words[start + 2] as usize,
        stage: stage_from(words[start + 3], words[start + 4]),
    }
}

#[tactic(auto, using(crate::proofs::Cursors::of_levels), unfolding(crate::specs::Words::cursor_words))]
pub(crate) fn cursor_words(cursor: &Cursor) -> [u64; WORDS]
    ensures { result ≡ cursor_words cursor.now }
{
    let mut words = [0; WORDS];
    words[0] = cursor.depth as u64;
    words[1] = cursor.opened;
    words[2] = kept_word(cursor.refusal);
    for (at, level) in cursor.levels.iter().enumerate() {
        let start = BEFORE_LEVELS + LEVEL_WORDS * at;
        words[start..start + LEVEL_WORDS].copy_from_slice(&level_words(level));
    }
    words
}

/// Any numbers make a cursor.
#[tactic(auto, using(crate::proofs::Cursors::of_levels), unfolding(crate::specs::Words::cursor_from))]
pub(crate) fn cursor_from(words: &[u64; WORDS]) -> Cursor
    ensures { result ≡ cursor_from words.now }
{
    let mut levels = [Level::BLANK; LEVELS];
    for (at, level) in levels.iter_mut().enumerate() {
        *level = level_from(words, at);
    }
    Cursor {
        levels,
        depth: words[0] as usize,
        opened: words[1],
        refusal: kept_from(words[2]),
    }
}
