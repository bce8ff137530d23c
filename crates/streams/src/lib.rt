// What the programs do with any file and any input: they open it, read as many bytes as are wanted, with a
// failed read taken for the end, and part what they read at a byte.
#![tactic(auto)]

ghost use Rattle.std.specs.Prelude.{◌≡◌, ◌≢◌, ◌<◌, ◌≤◌, ℕ, length, take, slice_index};
ghost use Rattle.std.specs.Io.KnownBytes.{Consumes};

use std::fs::File;
use std::io::Read;
use std::{fs, io};

// Opens the file of a name, to read it. A name that is not UTF-8 names no file for `std`.
pub fn open(rt: &HostRuntime, name: &[u8]) -> io::Result<File> {
    match str::from_utf8(name) {
        Ok(path) => fs::open(rt, path),
        Err(_) => Err(io::Error::other("the name is not UTF-8")),
    }
}

// Reads until the buffer is full, the input ends or a read fails. Answers how many bytes came to its start,
// and the error of the read that failed; of a reader whose bytes are known, the bytes are those that it has no
// longer, before an error too.
pub fn read_until_error<R: Read>(input: &mut R, buffer: &mut [u8]) -> (usize, io::Result<()>)
    ensures in_bounds { result.0 ≤ length buffer.new }
    ensures same_len { length buffer.new ≡ length buffer.old }
    ensures bytes { Consumes (R.remaining input.old) (R.remaining input.new) (take result.0 buffer.new) }
{
    let mut done = 0;
    while done < buffer.len() {
        match input.read(&mut buffer[done..]) {
            Ok(0) => break,
            Ok(n) => done += n,
            Err(why) => return (done, Err(why)),
        }
    }
    (done, Ok(()))
}

// The same, with a failed read taken for the end: how many bytes came to the buffer's start.
pub fn read_full<R: Read>(input: &mut R, buffer: &mut [u8]) -> usize
    ensures in_bounds { result ≤ length buffer.new }
    ensures same_len { length buffer.new ≡ length buffer.old }
    ensures bytes { Consumes (R.remaining input.old) (R.remaining input.new) (take result buffer.new) }
{
    read_until_error(input, buffer).0
}

// Where the part of a text that starts at a place ends: before the first mark from there on, or with the text.
pub fn end_of_part(text: &[u8], from: usize, mark: u8) -> usize
    requires { from ≤ length text.now }
    ensures after { from ≤ result }
    ensures in_bounds { result ≤ length text.now }
    ensures none_inside { (k : ℕ) → from ≤ k → k < result → slice_index text.now k ≢ mark }
    ensures at_mark { result < length text.now → slice_index text.now result ≡ mark }
{
    match text[from..].iter().position(|b| *b == mark) {
        Some(n) => from + n,
        None => text.len(),
    }
}
