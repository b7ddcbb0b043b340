ghost use Rattle.std.specs.Prelude.{◌≡◌, Ok};
ghost use Rattle.directory.specs.Seen.{lent, entry_seen, answer_seen};
ghost use Rattle.c_api.specs.Lies.{Lies, AnswerLies};
ghost use Rattle.c_api.specs.Words.{span_of, answer_words, verdict_words};

use crate::{ENTRY, NONE, PASSED, POOL, REFUSED, ROOT};
use directory::{Answer, Directory, Place, PlacedEntry};
use index_root::index_record_size;
use refusal::Fault;

/// Where the bytes of an entry lie: in which slice, from which byte, how many.
#[derive(Clone, Copy, Debug, PartialEq, Eq)]
pub(crate) struct Span {
    holder: u64,
    offset: u64,
    size: u64,
}

impl Span {
    /// A record begins at its number times the record size, the root at 0.
    fn new(directory: &Directory, placed: &PlacedEntry) -> Span
        requires { Lies (lent directory.now) (entry_seen placed.now) }
        ensures { result ≡ span_of (lent directory.now) (entry_seen placed.now) }
    {
        let (holder, start) = match placed.node {
            Place::Root => (ROOT, 0),
            Place::Record { number, vcn: _ } => (POOL, number * index_record_size(directory.root)),
        };
        Span {
            holder,
            offset: (start + placed.at) as u64,
            size: placed.entry.bytes.len() as u64,
        }
    }
}

/// The numbers of what a step or a lookup answers.
pub(crate) fn answer_words(directory: &Directory, answer: &Result<Answer, Fault>) -> [u64; 6]
    requires { AnswerLies (lent directory.now) (answer_seen answer.now) }
    ensures { result ≡ answer_words (lent directory.now) (answer_seen answer.now) }
{
    match answer {
        Ok(told) => match &told.entry {
            Some(entry) => {
                let span = Span::new(directory, entry);
                [ENTRY, 0, told.opened, span.holder, span.offset, span.size]
            }
            None => [NONE, 0, told.opened, 0, 0, 0],
        },
        Err(fault) => {
            let refusal = u64::from(fault.refusal.number());
            [REFUSED, refusal, fault.opened, 0, 0, 0]
        }
    }
}

/// The numbers of what a check answers.
pub(crate) fn verdict_words(verdict: Result<u64, Fault>) -> [u64; 3]
    ensures { result ≡ verdict_words verdict }
{
    match verdict {
        Ok(opened) => [PASSED, 0, opened],
        Err(fault) => [REFUSED, u64::from(fault.refusal.number()), fault.opened],
    }
}
