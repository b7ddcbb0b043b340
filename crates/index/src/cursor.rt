ghost use Rattle.std.specs.Prelude.{◌≡◌, ◌∷◌, []};

use directory::LEVELS;
use refusal::{Fault, Refusal};

/// Which node a level is in: the root, or the record that a VCN leads to.
#[derive(Clone, Copy, Debug, PartialEq, Eq)]
pub enum NodeName {
    Root,
    Record(i64),
}

/// How far a level has come.
#[derive(Clone, Copy, Debug, PartialEq, Eq)]
pub enum Stage {
    /// Not begun.
    Fresh,
    /// Its next entry is to be looked at.
    Going,
    /// The entry that starts there is put off until its subnode has been listed.
    Due(usize),
    /// Its LAST_ENTRY has been looked at.
    Ended,
}

#[derive(Clone, Copy, Debug, PartialEq, Eq)]
pub struct Level {
    pub node: NodeName,
    pub next: usize,
    pub stage: Stage,
}

impl Level {
    /// What stands in a slot that no level takes.
    pub const BLANK: Level = Level {
        node: NodeName::Root,
        next: 0,
        stage: Stage::Fresh,
    };

    ghost use Rattle.index.specs.Step.{level_at};

    /// A level that goes on at `next`.
    pub(crate) fn going(node: NodeName, next: usize) -> Level
        ensures { result ≡ level_at node next Stage.Going }
    {
        Level {
            node,
            next,
            stage: Stage::Going,
        }
    }
}

/// Where a listing has come to. Its fields are open: a step is total on any cursor.
#[derive(Clone, Copy, Debug, PartialEq, Eq)]
pub struct Cursor {
    /// The levels in use from the root down, then blank ones.
    pub levels: [Level; LEVELS],
    pub depth: usize,
    pub opened: u64,
    /// The refusal that every later step repeats, with the same count.
    pub refusal: Option<Refusal>,
}

impl Cursor {
    ghost use Rattle.index.specs.Cursor.{new_cursor, cursor_of};
    ghost use Rattle.std.specs.Prelude.{Some};
    ghost use Rattle.directory.specs.Answer.{fault_of};

    /// At the root, not begun.
    #[tactic(auto, unfolding(crate::specs::Cursor::slots_of))]
    pub fn new() -> Cursor
        ensures { result ≡ new_cursor }
    {
        Cursor {
            levels: [Level::BLANK; LEVELS],
            depth: 1,
            opened: 0,
            refusal: None,
        }
    }

    /// Keeps a refusal, and no level.
    #[tactic(auto, unfolding(crate::specs::Cursor::slots_of))]
    pub(crate) fn refuse(&mut self, refusal: Refusal) -> Fault
        ensures is { result ≡ fault_of refusal self.old.opened }
        ensures cursor { self.new ≡ cursor_of [] self.old.opened (Some refusal) }
    {
        self.levels = [Level::BLANK; LEVELS];
        self.depth = 0;
        self.refusal = Some(refusal);
        Fault {
            refusal,
            opened: self.opened,
        }
    }
}
