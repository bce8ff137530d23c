// The job program on inputs that stop it: it runs on each file that an argument names, with a buffer of
// its own, and writes the file's name on a line, the replies, and a newline.
#![tactic(auto)]

use std::env::{Env, FillError};
use std::io;
use units::TEXT_MOST;

// The bytes of an argument that are looked at: no path has more.
const PATH_ROOM: usize = 4096;

// Runs the job program on a file; on nothing where it cannot be opened.
fn serve_file(rt: &HostRuntime, path: &[u8]) -> io::Result<()> {
    let mut buffer = [0; TEXT_MOST];
    let Ok(mut input) = streams::open(rt, path) else {
        return Ok(());
    };
    jobs::serve(&mut buffer, &mut input, &mut rt.stdout())
}

// Runs the job program on the file that an argument names.
fn run(rt: &HostRuntime, path: &[u8]) -> io::Result<()> {
    rt.write_all(path)?;
    rt.write_all(b"\n")?;
    serve_file(rt, path)?;
    rt.write_all(b"\n")
}

// Runs the job program on the file that an argument names. Answers whether there is such an argument.
fn run_named(rt: &HostRuntime, k: usize) -> io::Result<bool> {
    let mut path = [0u8; PATH_ROOM];
    match rt.arg(k, &mut path) {
        Ok(n) => run(rt, &path[..n])?,
        // no file has such a name
        Err(FillError::TooLong) => run(rt, b"")?,
        Err(FillError::NotPresent) => return Ok(false),
    }
    Ok(true)
}

fn main(rt: HostRuntime) -> io::Result<()> {
    for k in 1..usize::MAX {
        if !run_named(&rt, k)? {
            break;
        }
    }
    Ok(())
}
