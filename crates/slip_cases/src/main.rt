// The command `slip` on stored command lines. The first argument names a file with a command line on each
// line, words parted by single spaces; an empty line has no words. The second names the file that each of
// them has as its standard input. For each the command line is written, then all that it writes, and what
// it ends with. Why a file could not be read is written to standard error, and not seen here.
#![tactic(auto)]

ghost use Rattle.std.specs.Prelude.{◌≤◌, length};

use slips::Ends;
use std::env::Env;
use std::io;
use std::io::Write;

const SPACE: u8 = 0x20;

const NEWLINE: u8 = 0x0A;

// The bytes of an argument that are looked at: no path has more.
const PATH_ROOM: usize = 4096;

// The bytes of the command lines that are run.
const LINES_ROOM: usize = 65536;

// Parts the words of a command line as arguments come: by a 0.
fn part_words(line: &mut [u8]) {
    for b in line.iter_mut() {
        if *b == SPACE {
            *b = 0;
        }
    }
}

// Writes what a command line ends with.
fn put_end(rt: &HostRuntime, status: u8) -> io::Result<()> {
    println!(rt; "ends with {status}\n")
}

// Runs one command line.
fn run_case(rt: &HostRuntime, line: &mut [u8], input: &[u8]) -> io::Result<()> {
    let mut output = rt.stdout();
    output.write_all(b"$ slip ")?;
    output.write_all(line)?;
    output.write_all(b"\n")?;
    part_words(line);
    let mut ends = Ends {
        input: streams::open(rt, input)?,
        output,
        error: rt.stdout(),
    };
    let status = slips::run(rt, line, &mut ends);
    put_end(rt, status)
}

// Runs each of the command lines.
fn run_all(rt: &HostRuntime, lines: &mut [u8], input: &[u8]) -> io::Result<()> {
    let mut from = 0;
    while from < lines.len() {
        let end = streams::end_of_part(lines, from, NEWLINE);
        run_case(rt, &mut lines[from..end], input)?;
        from = end + 1;
    }
    Ok(())
}

// Runs each command line of a file.
fn run_file(rt: &HostRuntime, name: &[u8], lines: &mut [u8], input: &[u8]) -> io::Result<()> {
    let mut file = streams::open(rt, name)?;
    let n = streams::read_full(&mut file, lines);
    run_all(rt, &mut lines[..n], input)
}

// The bytes of an argument: none where there is no such argument, or no room for it.
fn argument(rt: &HostRuntime, k: usize, word: &mut [u8]) -> usize
    ensures { result ≤ length word.new }
{
    rt.arg(k, word).unwrap_or(0)
}

fn main(rt: HostRuntime) -> io::Result<()> {
    let mut cases = [0u8; PATH_ROOM];
    let n = argument(&rt, 1, &mut cases);
    let mut input = [0u8; PATH_ROOM];
    let m = argument(&rt, 2, &mut input);
    let mut lines = [0u8; LINES_ROOM];
    run_file(&rt, &cases[..n], &mut lines, &input[..m])
}
