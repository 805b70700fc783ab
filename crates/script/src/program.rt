use crate::current::Current;
use crate::line::answer_line;
use std::alloc::Global;
use std::io;
use std::io::{BufRead, BufReader};

// Prints a line with its answer, if it has one. A line that is not UTF-8 is read and shown with
// replacement characters, so no command can be in it.
fn serve(rt: &HostRuntime, heap: Global, current: &mut Current, bytes: &[u8]) -> io::Result<()> {
    let text = String::from_utf8_lossy(heap, bytes)?;
    let line = text.as_str().trim_end_matches('\r');
    match answer_line(heap, current, line)? {
        Some(answer) => println!(rt; "{line} -> {answer}"),
        None => Ok(()),
    }
}

// Reads a script on standard input, a command a line, and prints each command with its answer.
pub fn run_script(rt: &HostRuntime) -> io::Result<()> {
    let heap = rt.alloc();
    let mut current = Current::none(heap);
    for line in BufReader::new(heap, rt.stdin())?.split(heap, b'\n') {
        let bytes = line?;
        serve(rt, heap, &mut current, bytes.as_slice())?;
    }
    Ok(())
}
