//! Lists the entries of the capture on standard input. A read that fails ends the input, and a write that fails ends the text.
#![tactic(auto)]

use capture_show::{MOST_READ, read_front, show_capture};
use std::io;

fn main(rt: HostRuntime) {
    let mut input = [0; MOST_READ];
    let (length, _) = read_front(&mut rt.reader(), &mut input);
    let _ = show_capture(&input[..length], &mut io::writer(&rt));
}
