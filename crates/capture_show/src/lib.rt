//! What the capture program prints: it reads a capture, and writes its listing.
#![tactic(auto)]

mod listing_text;
mod read;
mod written;

pub use listing_text::{MOST_READ, show, show_capture, show_read};
pub use read::read_front;
