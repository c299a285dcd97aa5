//! Writes the script of packet captures. Plays a script of captured pieces, and reports what became of the messages, be it of any length,
//! writes a line for each message or receipt, checks the tables of it, or answers questions among its rows as they come. Adds reports.
#![tactic(auto)]

use smq_commands::{Blocks, Terminals, blocks, obey, send_all};
use std::io::IsTerminal;
use std::process::ExitCode;
use std::{io, thread};

fn main(rt: HostRuntime) -> ExitCode {
    let terminals = Terminals {
        errors: rt.stderr().is_terminal(),
        output: rt.stdout().is_terminal(),
    };
    // (a thread takes the runtime by value, which no other function can name)
    ExitCode::from(obey(&rt, terminals, || -> io::Result<Blocks> {
        let (to, from) = blocks(rt.alloc())?;
        let handle = rt;
        let _thread = thread::spawn(&rt, move || send_all(&handle, &to))?;
        Ok(from)
    }))
}
