// The job program's work, between an input and an output that are open: it only moves bytes. What they
// mean, what is answered and when to stop is decided by `record`. It stands apart from `job`, so that the
// cases of `job_cases` run the same code.
#![tactic(auto)]

ghost use Rattle.std.specs.Prelude.{◌≡◌, ◌≤◌, length, OnErr};
ghost use Rattle.units.specs.Limits.{text_most};

use record::{HEAD_BYTES, Job, Reply};
use std::io;
use std::io::{Read, Write};

// Writes a reply, with the text where it is filled, and answers whether to go on; or the error of a write
// that failed.
fn send<W: Write>(output: &mut W, reply: Reply, text: &[u8]) -> io::Result<bool> {
    output.write_all(&reply.head)?;
    if reply.filled {
        output.write_all(text)?;
    }
    Ok(reply.more)
}

// Reads the text of a job and replies to it. What the buffer cannot hold of a text that is too long is
// read over its start. Answers whether to go on.
fn serve_text<R: Read, W: Write>(
    buffer: &mut [u8],
    input: &mut R,
    output: &mut W,
    job: Job,
) -> io::Result<bool>
    requires { length buffer.old ≡ text_most }
{
    let kept = record::kept(job.len);
    let past = record::past(job.len);
    let first = streams::read_full(input, &mut buffer[..kept]);
    let second = streams::read_full(input, &mut buffer[..past]);
    let reply = record::settle(&mut buffer[..kept], job, first + second);
    send(output, reply, &buffer[..kept])
}

// Reads one record and replies to it. Answers whether to go on.
fn serve_one<R: Read, W: Write>(
    buffer: &mut [u8],
    input: &mut R,
    output: &mut W,
) -> io::Result<bool>
    requires { length buffer.old ≡ text_most }
{
    let mut space = [0u8; HEAD_BYTES];
    let came = streams::read_full(input, &mut space);
    match record::head_of(&space[..came]) {
        Ok(Some(job)) => serve_text(buffer, input, output, job),
        Ok(None) => Ok(false),
        Err(answer) => send(output, record::reply_of(answer, 0), &[]),
    }
}

// Replies to the records of an input, in order, until it ends, `record` says stop or a write fails, with
// its error. The buffer is for the text of one job at a time; an error leaves what was read last in it.
pub fn serve<R: Read, W: Write>(buffer: &mut [u8], input: &mut R, output: &mut W) -> io::Result<()>
    requires { length buffer.old ≡ text_most }
    ensures err { OnErr result (length buffer.new ≡ text_most) }
{
    // a proved loop ends: this many records come in no day, and in no thousand years
    for _ in 0..u64::MAX {
        if !serve_one(buffer, input, output)? {
            break;
        }
    }
    Ok(())
}
