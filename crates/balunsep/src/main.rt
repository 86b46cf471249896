// The program's process: its arguments, streams and status.
#![tactic(auto)]

use console::{Ending, start};
use std::io::BufWriter;
use std::process::ExitCode;
use std::{env, io};

fn run(rt: &HostRuntime) -> io::Result<Ending> {
    let words: Vec<String> = env::args(rt)?.skip(1).collect(rt.alloc())?;
    let mut out = BufWriter::new(rt.alloc(), rt.stdout())?;
    start(rt, words.as_slice(), &mut out, &mut rt.stderr())
}

// The status is 1 where what there was to say has been written, or could not be.
fn main(rt: HostRuntime) -> ExitCode {
    match run(&rt) {
        Ok(Ending::Done) => ExitCode::SUCCESS,
        Ok(Ending::Failed) => ExitCode::FAILURE,
        Err(e) => {
            let _ = eprintln!(rt; "balunsep: {e}");
            ExitCode::FAILURE
        }
    }
}
