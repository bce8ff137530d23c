// The command that support types. It gathers its arguments, and `slips` does what they ask for.
//
//     slip COMMAND ..
//
// The exit status is what the run ends with. Where the first argument is --status-on-3, its digit is written
// to descriptor 3 too, which tools/slip reads; without it no such descriptor is touched.
#![tactic(auto)]

ghost use Rattle.std.specs.Prelude.{◌≤◌};

use slips::{BLOCK_ROOM, Ends};
use std::env::Env;
use std::process::ExitCode;

const STATUS_FILENO: i32 = 3;

// Whether the status is asked for.
fn wants_status(rt: &HostRuntime) -> bool {
    let mut word = [0u8; 16];
    match rt.arg(1, &mut word) {
        Ok(n) => asked::is_same(&word[..n], b"--status-on-3"),
        Err(_) => false,
    }
}

// Does what the arguments from a place on ask for.
fn run_from(rt: &HostRuntime, block: &mut [u8; BLOCK_ROOM], first: usize) -> u8
    requires { first ≤ 2 }
{
    let n = slips::gather(rt, block, first);
    let mut ends = Ends {
        input: rt.stdin(),
        output: rt.stdout(),
        error: rt.stderr(),
    };
    slips::run(rt, &block[..n], &mut ends)
}

fn main(rt: HostRuntime) -> ExitCode {
    let mut block = [0u8; BLOCK_ROOM];
    if wants_status(&rt) {
        let status = run_from(&rt, &mut block, 2);
        io::print_decimal(STATUS_FILENO, status as u64);
        return ExitCode::from(status);
    }
    ExitCode::from(run_from(&rt, &mut block, 1))
}
