// Writes the sentence of each refusal on a line, after its number, for the width 42 and texts of 12 and 13
// bytes; and then some whole lines. `tools/refusals` holds docs/REFUSALS.md against what is written here.
#![tactic(auto)]

use refusals::LINE_MOST;
use saying::Line;
use std::io;
use units::{Answer, Refusal};

const WIDTH: u32 = 42;

const BEFORE: usize = 12;

const AFTER: usize = 13;

// Writes the sentence of a number.
fn put_sentence(rt: &HostRuntime, number: u32) -> io::Result<()> {
    let mut room = [0u8; LINE_MOST];
    let mut line = Line::new(&mut room);
    line.say_number(number as u64);
    line.say(b" ");
    refusals::say_sentence(&mut line, number, WIDTH, BEFORE, AFTER);
    line.say(b"\n");
    rt.write_all(line.as_bytes())
}

// Writes the line of a refusal.
fn put_line(rt: &HostRuntime, answer: Answer, before: &[u8], after: &[u8]) -> io::Result<()> {
    let mut room = [0u8; LINE_MOST];
    let mut line = Line::new(&mut room);
    refusals::refusal_line(&mut line, answer, WIDTH, before, after);
    rt.write_all(line.as_bytes())
}

// Writes the sentences of the table, and those of the numbers before and after it.
fn put_sentences(rt: &HostRuntime) -> io::Result<()> {
    for number in 0..16 {
        put_sentence(rt, number)?;
    }
    Ok(())
}

fn main(rt: HostRuntime) -> io::Result<()> {
    put_sentences(&rt)?;
    put_line(&rt, Refusal::WideLine.at(0), b"a b", b"a b")?;
    put_line(
        &rt,
        Refusal::BadChange.at(7),
        b"abc d\xC3\xA9 f",
        b"abc\nd\xC3\xA9 f",
    )?;
    put_line(
        &rt,
        Refusal::ManyLines.at(8),
        b"abc d\xC3\xA9\nf",
        b"abc\nd\xC3\xA9\nf",
    )?;
    put_line(&rt, Refusal::NotUtf8.at(3), b"abc\xFF", b"abc\xFF")?;
    put_line(&rt, Refusal::Lengths.at(0), b"abc", b"abcd")?;
    put_line(&rt, Refusal::TooWide.at(0), b"abc", b"abc")?;
    put_line(&rt, Refusal::TooLong.at(60001), b"abc", b"abc")
}
