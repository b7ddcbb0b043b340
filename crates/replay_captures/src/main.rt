//! Replays stored captures: the size u32 of each and its bytes on standard input. Prints what ntfs_capture prints of each.
#![tactic(auto)]

use replay_cases::{Case, LONGEST_BODY, LossyWriter, MOST_CASES, read_case};
use std::io;
use std::io::Write;

fn main(rt: HostRuntime) {
    let mut reader = rt.stdin();
    let mut writer = LossyWriter::new(io::writer(&rt));
    let mut head = [0; 4];
    let mut room = [0; LONGEST_BODY];
    for _case in 0..MOST_CASES {
        let Ok(Some(Case { body, .. })) = read_case(&mut reader, &mut head, &mut room) else {
            break;
        };
        let _ = capture_show::show_capture(body, &mut writer);
        let _ = writer.flush();
    }
}
