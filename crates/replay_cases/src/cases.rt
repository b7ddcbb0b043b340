//! The cases of an input, one after the other.
use crate::number::number_at;

/// A longer body ends the cases.
pub const LONGEST_BODY: usize = 65536;

/// Later cases are not run.
pub const MOST_CASES: usize = 100000;

/// As many bytes as so many cases have at most, with a tag of 4.
pub const LONGEST_INPUT: u64 = 6554400000;

/// A case: what stands between its size and its body, and the body, of as many bytes as the size says.
#[derive(Clone, Copy)]
pub struct Case<'a> {
    pub tag: &'a [u8],
    pub body: &'a [u8],
}

/// The cases of an input, each with a size u32, so many bytes of tag, and its body.
#[derive(Clone, Copy)]
pub struct Cases<'a> {
    pub input: &'a [u8],
    pub tag: usize,
}

impl<'a> Iterator for Cases<'a> {
    ghost use Rattle.std.specs.Prelude.{length};
    ghost use Rattle.std.specs.Iterator.{at_most};
    ghost use Rattle.replay_cases.specs.Cases.{TakesCase};

    type Item = Case<'a>;

    ghost next_gives = { TakesCase };

    ghost remaining = { λ cases. at_most (length cases.input.now) };

    /// The next case, or none where no whole one is left.
    fn next(&mut self) -> Option<Case<'a>> {
        let size = number_at(self.input, 0);
        let (_, rest) = self.input.split_at_checked(4)?;
        let (tag, rest) = rest.split_at_checked(self.tag)?;
        if size > LONGEST_BODY {
            return None;
        }
        let (body, rest) = rest.split_at_checked(size)?;
        self.input = rest;
        Some(Case { tag, body })
    }
}
