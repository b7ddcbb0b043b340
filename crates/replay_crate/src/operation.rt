//! What a case asks for.
use crate::answers::Shown;
use replay_cases::{Setup, UnknownSetup};

#[derive(Clone, Copy)]
pub enum Operation {
    SetUp(Setup),
    List(Shown),
    LookUp(Shown),
    /// With an allowance and a part of the table of the case's own.
    LookUpLent,
}

impl TryFrom<usize> for Operation {
    type Error = UnknownSetup;

    fn try_from(number: usize) -> Result<Operation, UnknownSetup> {
        match number {
            6 => Ok(Operation::List(Shown::Places)),
            7 => Ok(Operation::LookUp(Shown::Places)),
            8 => Ok(Operation::List(Shown::Names)),
            9 => Ok(Operation::LookUp(Shown::Names)),
            10 => Ok(Operation::LookUpLent),
            _ => Ok(Operation::SetUp(Setup::try_from(number)?)),
        }
    }
}
