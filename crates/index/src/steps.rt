ghost use Rattle.std.specs.Prelude.{◌≡◌, [], ◌<◌, ◌≤◌, ◌∷◌, ◌+◌, ◌-◌, ◌^◌, length, OnOk};
ghost use Rattle.index_entry.specs.Entry.{is_last};
ghost use Rattle.index_entry.specs.IndexEntry.{entry_bytes};
ghost use Rattle.directory.specs.Directory.{spent_at, subnode};
ghost use Rattle.directory.specs.Limits.{level_limit};
ghost use Rattle.directory.specs.Seen.{lent, directory_seen, opened, read, entry_seen};
ghost use Rattle.index.specs.Cursor.{frames, levels_of, IsTidy};
ghost use Rattle.index.specs.Step.{node_at, name_of, turn, walk, walk_in, checked, step, judge, put_off, on_subnode};
ghost use Rattle.index.specs.Seen.{turned, came_out, taken, stepped, AtEnd};

use crate::cursor::{Cursor, Level, NodeName, Stage};
use directory::{Answer, Directory, LEVELS, Node, OpenDirectory, Place, PlacedEntry};
use index_entry::IndexEntry;
use refusal::{Fault, Refusal};

/// What a turn comes to.
#[derive(Clone, Copy, Debug)]
pub(crate) enum Turned<'a> {
    Yields(PlacedEntry<'a>),
    Ends,
    GoesOn,
}

/// The node that a level is in, as it now stands.
#[tactic(auto, unfolding(crate::specs::Step::node_at))]
fn node_at<'a>(directory: &OpenDirectory<'a>, node: NodeName) -> Result<Node<'a>, Refusal>
    ensures { read result ≡ node_at (directory_seen directory.now) node }
{
    match node {
        NodeName::Root => Ok(directory.root_node()),
        NodeName::Record(vcn) => directory.open_again(vcn),
    }
}

/// By what a level keeps a node.
fn name_of(place: Place) -> NodeName
    ensures { result ≡ name_of place }
{
    match place {
        Place::Root => NodeName::Root,
        Place::Record { number: _, vcn } => NodeName::Record(vcn),
    }
}

/// A level before a step: its node, and the entry that was put off there.
#[tactic(auto, unfolding(crate::specs::Step::judge))]
fn judge(directory: &OpenDirectory, level: &Level) -> Result<(), Refusal>
    ensures { result ≡ judge (directory_seen directory.now) level.now }
{
    let node = node_at(directory, level.node)?;
    if let Stage::Due(at) = level.stage {
        node.entry(at)?;
    }
    Ok(())
}

/// The level whose entry is put off until its subnode has been listed.
fn put_off(level: Level, entry: &IndexEntry) -> Level
    requires { level.next + length (entry_bytes entry.now) < 2 ^ 64 }
    ensures { result ≡ put_off (is_last (entry_bytes entry.now)) level.node level.next (entry_bytes entry.now) }
{
    Level {
        node: level.node,
        next: level.next + entry.bytes.len(),
        stage: if entry.is_last_entry() {
            Stage::Ended
        } else {
            Stage::Due(level.next)
        },
    }
}

impl Cursor {
    /// The deepest level.
    #[tactic(auto, using(crate::proofs::Frames::of_frames))]
    fn top(&self) -> Level
        requires some { 0 < self.now.depth }
        requires tidy { IsTidy self.now }
        ensures { levels_of self.now ≡ result ∷ frames self.now.levels (self.now.depth - 1) }
    {
        self.levels[self.depth - 1]
    }

    /// Puts a level in the deepest one's place.
    #[tactic(auto, using(crate::proofs::Frames::of_frames))]
    fn set_top(&mut self, level: Level)
        requires some { 0 < self.old.depth }
        requires tidy { IsTidy self.old }
        ensures levels { levels_of self.new ≡ level ∷ frames self.old.levels (self.old.depth - 1) }
        ensures tidy { IsTidy self.new }
        ensures depth { self.new.depth ≡ self.old.depth }
        ensures opened { self.new.opened ≡ self.old.opened }
        ensures kept { self.new.refusal ≡ self.old.refusal }
    {
        self.levels[self.depth - 1] = level;
    }

    /// Drops the deepest level.
    #[tactic(auto, using(crate::proofs::Frames::of_frames))]
    fn pop(&mut self)
        requires some { 0 < self.old.depth }
        requires tidy { IsTidy self.old }
        ensures levels { levels_of self.new ≡ frames self.old.levels (self.old.depth - 1) }
        ensures tidy { IsTidy self.new }
        ensures opened { self.new.opened ≡ self.old.opened }
        ensures kept { self.new.refusal ≡ self.old.refusal }
    {
        self.depth -= 1;
        self.levels[self.depth] = Level::BLANK;
    }

    /// Adds a level below the deepest one.
    #[tactic(auto, using(crate::proofs::Frames::of_frames))]
    fn push(&mut self, level: Level)
        requires room { self.old.depth < level_limit }
        requires tidy { IsTidy self.old }
        ensures levels { levels_of self.new ≡ level ∷ levels_of self.old }
        ensures tidy { IsTidy self.new }
        ensures opened { self.new.opened ≡ self.old.opened }
        ensures kept { self.new.refusal ≡ self.old.refusal }
    {
        self.levels[self.depth] = level;
        self.depth += 1;
    }

    /// Makes each slot that no level takes blank.
    #[tactic(auto, using(crate::proofs::Frames::of_frames))]
    fn tidy(&mut self)
        requires { self.old.depth ≤ level_limit }
        ensures levels { levels_of self.new ≡ levels_of self.old }
        ensures tidy { IsTidy self.new }
        ensures opened { self.new.opened ≡ self.old.opened }
        ensures kept { self.new.refusal ≡ self.old.refusal }
    {
        for at in self.depth..LEVELS {
            self.levels[at] = Level::BLANK;
        }
    }

    /// Meets an entry that has not been looked at before.
    #[tactic(auto, using(crate::proofs::Frames::of_frames))]
    fn meet<'a>(
        &mut self,
        directory: &OpenDirectory<'a>,
        allowance: u64,
        level: Level,
        placed: PlacedEntry<'a>,
    ) -> Result<Turned<'a>, Refusal>
        requires some { 0 < self.old.depth }
        requires tidy { IsTidy self.old }
        requires inside { level.next + length (entry_bytes placed.entry) < 2 ^ 64 }
        ensures turn { turned result self.new
            ≡ on_subnode
            (subnode (directory_seen directory.now) (level_limit - self.old.depth) (spent_at allowance self.old.opened) (entry_bytes placed.entry.entry))
            level.node level.next (entry_seen placed.entry) self.old.opened (frames self.old.levels (self.old.depth - 1)) }
        ensures tidy { IsTidy self.new }
        ensures kept { self.new.refusal ≡ self.old.refusal }
        ensures ended { AtEnd result (levels_of self.new ≡ []) }
    {
        let entry = placed.entry;
        let left = LEVELS - self.depth;
        let Some(below) = directory.open_below(left, self.opened >= allowance, &entry)? else {
            if entry.is_last_entry() {
                self.pop();
                return Ok(Turned::GoesOn);
            }
            self.set_top(Level::going(level.node, level.next + entry.bytes.len()));
            return Ok(Turned::Yields(placed));
        };
        self.set_top(put_off(level, &entry));
        self.push(Level::going(name_of(below.place), below.start));
        self.opened += 1;
        Ok(Turned::GoesOn)
    }

    /// One look at the deepest level.
    #[tactic(auto, using(crate::proofs::Frames::of_frames), unfolding(crate::specs::Step::turn))]
    fn turn<'a>(
        &mut self,
        directory: &OpenDirectory<'a>,
        allowance: u64,
    ) -> Result<Turned<'a>, Refusal>
        requires { IsTidy self.old }
        ensures turn { turned result self.new
            ≡ turn (directory_seen directory.now) (spent_at allowance) (levels_of self.old) self.old.opened }
        ensures tidy { IsTidy self.new }
        ensures kept { self.new.refusal ≡ self.old.refusal }
        ensures ended { AtEnd result (levels_of self.new ≡ []) }
    {
        if self.depth == 0 {
            return Ok(Turned::Ends);
        }
        let level = self.top();
        let node = node_at(directory, level.node)?;
        match level.stage {
            Stage::Fresh => {
                self.set_top(Level::going(level.node, node.start));
                Ok(Turned::GoesOn)
            }
            Stage::Going => match node.entry_at(level.next) {
                Some(entry) => self.meet(directory, allowance, level, entry?),
                None => {
                    self.pop();
                    Ok(Turned::GoesOn)
                }
            },
            Stage::Due(at) => {
                let entry = node.entry(at)?;
                self.set_top(Level::going(level.node, level.next));
                Ok(Turned::Yields(entry))
            }
            Stage::Ended => {
                self.pop();
                Ok(Turned::GoesOn)
            }
        }
    }

    /// Turns, until something is yielded or refused, or all is listed.
    #[tactic(auto, using(crate::proofs::Turns::of_turns))]
    fn walk<'a>(
        &mut self,
        directory: &OpenDirectory<'a>,
        allowance: u64,
    ) -> Result<Option<PlacedEntry<'a>>, Refusal>
        requires { IsTidy self.old }
        ensures walk { came_out result self.new
            ≡ walk (directory_seen directory.now) (spent_at allowance) (levels_of self.old) self.old.opened }
        ensures tidy { IsTidy self.new }
        ensures kept { self.new.refusal ≡ self.old.refusal }
    {
        'turns: loop {
            match self.turn(directory, allowance)? {
                Turned::Yields(entry) => return Ok(Some(entry)),
                Turned::Ends => return Ok(None),
                Turned::GoesOn => {}
            }
        }
    }

    /// What is looked at before a step.
    #[tactic(auto, using(crate::proofs::Checks::of_checks), unfolding(crate::specs::Step::checked))]
    fn check<'a>(&self, directory: &Directory<'a>) -> Result<OpenDirectory<'a>, Refusal>
        ensures is { opened result ≡ checked (lent directory.now) self.now }
        ensures within { OnOk result (self.now.depth ≤ level_limit) }
    {
        let passed = directory.open()?;
        if self.depth > LEVELS {
            return Err(Refusal::TooManyLevels);
        }
        for level in &self.levels[..self.depth] {
            judge(&passed, level)?;
        }
        Ok(passed)
    }

    /// A step where a level is left, and no refusal is kept.
    fn checked_walk<'a>(
        &mut self,
        directory: &Directory<'a>,
        allowance: u64,
    ) -> Result<Option<PlacedEntry<'a>>, Refusal>
        ensures walk { came_out result self.new
            ≡ walk_in (spent_at allowance) (checked (lent directory.now) self.old) (levels_of self.old) self.old.opened }
        ensures tidy { OnOk result (IsTidy self.new) }
        ensures kept { self.new.refusal ≡ self.old.refusal }
    {
        let passed = self.check(directory)?;
        self.tidy();
        self.walk(&passed, allowance)
    }

    /// The next entry, the end or a refusal.
    ///
    /// Over memory that does not change, a step answers one entry after another, and then the end or a refusal for ever.
    #[tactic(auto, using(crate::proofs::Frames::of_cursors), unfolding(crate::specs::Step::step))]
    pub fn step<'a>(
        &mut self,
        directory: &Directory<'a>,
        allowance: u64,
    ) -> Result<Answer<'a>, Fault>
        ensures { taken result self.new ≡ step (lent directory.now) (spent_at allowance) self.old }
    {
        if let Some(refusal) = self.refusal {
            return Err(Fault {
                refusal,
                opened: self.opened,
            });
        }
        if self.depth == 0 {
            return Ok(Answer {
                entry: None,
                opened: self.opened,
            });
        }
        match self.checked_walk(directory, allowance) {
            Ok(entry) => Ok(Answer {
                entry,
                opened: self.opened,
            }),
            Err(refusal) => Err(self.refuse(refusal)),
        }
    }
}

/// What a step answers, and the cursor to go on with.
#[derive(Clone, Copy, Debug)]
pub struct Stepped<'a> {
    pub answer: Result<Answer<'a>, Fault>,
    pub cursor: Cursor,
}

/// A step, with the cursor in and out by value.
pub fn step<'a>(directory: &Directory<'a>, allowance: u64, cursor: Cursor) -> Stepped<'a>
    ensures { stepped result ≡ step (lent directory.now) (spent_at allowance) cursor }
{
    let mut cursor = cursor;
    let answer = cursor.step(directory, allowance);
    Stepped { answer, cursor }
}
