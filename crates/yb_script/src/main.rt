//! Runs a script of commands from standard input, and ends with the status of the run.
#![tactic(auto)]

mod called;
mod laws;
mod performing;
mod refusal;
mod run;
#[cfg(test)]
mod tests;
#[cfg(test)]
mod worked;

use script_io::{HostSink, HostSource};
use std::process::ExitCode;
use std::{env, io};

fn main(rt: HostRuntime) -> ExitCode {
    let Ok(args) = env::args(&rt) else {
        return ExitCode::from(2);
    };
    let Ok(words) = args.skip(1).collect::<Vec<String>>(rt.alloc()) else {
        return ExitCode::from(2);
    };
    let mut source = HostSource::new(rt.reader());
    let mut sink = HostSink::new(io::writer(&rt));
    let ended = run::run(rt.alloc(), &words, &mut source, &mut sink);
    explain(&rt, ended.status, ended.done);
    ExitCode::from(ended.status)
}

// Says on standard error what ended the run, where it was not whole. That this line is written is
// not proved, and a fault of writing it changes nothing.
fn explain(rt: &HostRuntime, status: u8, done: u64) {
    let _ = match status {
        0 => Ok(()),
        2 => eprintln!(rt; "yb_script: the words are no form; use: yb_script run < SCRIPT"),
        3 => eprintln!(rt; "yb_script: a line of the script is refused; nothing was done"),
        4 => eprintln!(rt; "yb_script: standard input can't be read; nothing was done"),
        5 => eprintln!(rt;
            "yb_script: standard output can't be written; {done} commands were done and answered"
        ),
        6 => eprintln!(rt; "yb_script: there is no memory; {done} commands were done and answered"),
        7 => eprintln!(rt; "yb_script: the script has more than 1048576 bytes; nothing was done"),
        _ => eprintln!(rt;
            "yb_script: an event has no stamp or no room in its log; {done} commands were done and answered"
        ),
    };
}
