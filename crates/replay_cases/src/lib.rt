//! Stored cases, as the replay programs read them: the cases of an input, the directory and the table that they lend.
#![tactic(auto)]

mod cases;
mod fixture;
mod lent;
mod lossy;
mod number;
mod read;
#[cfg(test)]
mod tests;

pub use cases::{Case, Cases, LONGEST_BODY, LONGEST_INPUT, MOST_CASES};
pub use fixture::{Fixture, MadeTable, Setup, UnknownSetup};
pub use lent::directory_in;
pub use lossy::LossyWriter;
pub use number::{number_at, part};
pub use read::read_case;
