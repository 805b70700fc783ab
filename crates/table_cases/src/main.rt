// Runs the program on scripts that ask grids over tables, whose answers were worked out by hand.
// A program is run on one input, so each set of cases has a program of its own.
#![tactic(auto)]

use std::io;

fn main(rt: HostRuntime) -> io::Result<()> {
    script::run_script(&rt)
}
