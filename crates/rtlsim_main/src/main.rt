//! The program: the library over the system's arguments, files and standard streams.
#![tactic(auto)]

use rtlsim::exit_code;
use std::process::ExitCode;
use vhdl_front::Vhdl;

fn main(rt: HostRuntime) -> ExitCode {
    exit_code::<Vhdl, _, _, _, _, _>(&rt, rt.reader(), rt.stdout(), rt.stderr(), rt.stderr())
}
