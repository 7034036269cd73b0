//! The program: standard input, standard output and the words after the program's name.
#![tactic(auto)]

use coyotos_cli::run_program;
use program_entry::{Noted, Streams};
use std::marker::Brand;
use std::process::ExitCode;
use std::{env, io};
use steps::Permit;

/// Hands the arguments and the standard streams to the program. Nothing is known of what these give and take.
fn main(rt: HostRuntime) -> ExitCode {
    let noted = Noted::new();
    let mut streams = Streams::new(
        rt.alloc(),
        rt.reader(),
        io::writer(&rt),
        rt.stderr(),
        &noted,
    );
    run_program::<_, _, _, Brand>(rt.alloc(), env::args(&rt), &mut streams, Permit::new(&rt))
}
