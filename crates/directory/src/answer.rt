ghost use Rattle.std.specs.Prelude.{◌≡◌};

use crate::node::PlacedEntry;
use refusal::{Fault, Refusal};

/// What a walk answers: an entry or none, and how many records were opened so far.
#[derive(Clone, Copy, Debug)]
pub struct Answer<'a> {
    pub entry: Option<PlacedEntry<'a>>,
    pub opened: u64,
}

impl<'a> Answer<'a> {
    ghost use Rattle.directory.specs.Seen.{told, answer_seen};

    /// How a walk came out, with the records opened until then.
    pub fn told(
        outcome: Result<Option<PlacedEntry<'a>>, Refusal>,
        opened: u64,
    ) -> Result<Answer<'a>, Fault>
        ensures { answer_seen result ≡ told outcome.entry opened }
    {
        match outcome {
            Ok(entry) => Ok(Answer { entry, opened }),
            Err(refusal) => Err(Fault { refusal, opened }),
        }
    }
}
