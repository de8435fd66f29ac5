// Reads a run sheet from standard input, carries it out, and prints what it did, line by line.
#![tactic(auto)]

use runs::report;
use std::io;
use std::io::Read;

// A sheet has at most 60,000 bytes; one more is enough to know that it is too long.
const ENOUGH: u64 = 60001;

fn main(rt: HostRuntime) -> io::Result<()> {
    let heap = rt.alloc();
    let mut sheet = Vec::new(heap);
    rt.stdin().take(ENOUGH).read_to_end(&mut sheet)?;
    let text = report(heap, sheet.as_slice())?;
    rt.print(text)
}
