// The program: a script of commands on standard input, each answered on standard output.
#![tactic(auto)]

use std::io;

fn main(rt: HostRuntime) -> io::Result<()> {
    script::run_script(&rt)
}
