// Judges pa.bin and ct.bin.
#![tactic(auto)]

use std::io;

fn main(rt: HostRuntime) -> io::Result<()> {
    judging_program::judge_files(&rt)
}
