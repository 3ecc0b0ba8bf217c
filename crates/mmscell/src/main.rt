//! Serves the recording on standard input as a device of MMS (ISO 9506), and writes the report to standard output.
#![tactic(auto)]

use std::process::ExitCode;

fn main(rt: HostRuntime) -> ExitCode {
    cell_main::program(&rt, rt.stderr())
}
