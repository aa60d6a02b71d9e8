//! `bt-ctf [OPTIONS] DIR...`: prints the events of the traces in folders.
#![tactic(auto)]

use ctf_cli::start;
use std::io::IsTerminal;
use std::process::ExitCode;

fn main(rt: HostRuntime) -> ExitCode {
    let out = rt.stdout();
    let is_terminal = out.is_terminal();
    ExitCode::from(start(&rt, out, is_terminal, rt.stderr()))
}
