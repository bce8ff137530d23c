// The work of `slip`, between an input and two outputs that are open: it only moves bytes. What is asked for is decided
// by `asked`, what is answered by the entries of document 01, and each line that is written is made by
// `told`, `refusals`, `shown` and `usage`. It stands apart from `slip`, so that the cases of `slip_cases`
// run the same code.
#![tactic(auto)]

ghost use Rattle.std.specs.Prelude.{◌≡◌, ◌+◌, ◌≤◌, length, take, IfOk};
ghost use Rattle.std.specs.Io.KnownBytes.{Consumes};
ghost use Rattle.slips.specs.Show.{Shows, shown_at, show_answer};
ghost use Rattle.slips.specs.Rooms.{text_room, line_room, argument_room, block_room};

use asked::{ARGUMENT_MOST, File, Misuse, Plan, WIDTH};
use limits::TextRefusal;
use saying::Line;
use shown::Tally;
use std::env::{Env, FillError};
use std::io;
use std::io::{Cursor, Read, Write};
use units::{Answer, Columns, Offset, TEXT_MOST};
use usage::USAGE_LINES;
use words::Word;

// One byte more than the longest text: a text that fills the buffer is too long, however long it is.
pub const TEXT_ROOM: usize = 60001;

// The bytes of an argument that are gathered: one that has them all is too long.
const ARGUMENT_ROOM: usize = 4096;

// The arguments that are gathered: no command takes so many words.
const ARGUMENTS: usize = 6;

// The bytes that so many arguments take, each with a 0 after it.
pub const BLOCK_ROOM: usize = 24582;

// The bytes of the longest line that is written.
pub const LINE_ROOM: usize = 180267;

// The bytes of a system's reason that are said.
const REASON_ROOM: usize = 320;

// What a run ends with: done or accepted; refused; wrong arguments, or a file that failed.
pub const DONE: u8 = 0;

pub const REFUSED: u8 = 1;

pub const FAILED: u8 = 2;

// Why a run is not done. It is said where it comes up.
#[derive(Clone, Copy, Debug, PartialEq, Eq)]
enum Stop {
    Refused,
    Failed,
}

impl From<Stop> for u8 {
    fn from(stop: Stop) -> u8 {
        match stop {
            Stop::Refused => REFUSED,
            Stop::Failed => FAILED,
        }
    }
}

// ---- files that fail

// A reason without the number that `io::Error` shows after it.
fn reason_of(shown: &[u8]) -> &[u8] {
    let Ok(text) = str::from_utf8(shown) else {
        return shown;
    };
    match text.rsplit_once(" (os error ") {
        Some((reason, _)) => reason.as_bytes(),
        None => shown,
    }
}

// Writes the line of a file that failed. Where that fails too, nobody is told.
fn say_failed<W: Write>(error: &mut W, name: &[u8], reason: &[u8]) {
    let _ = error.write_all(b"slip: ");
    let _ = error.write_all(name);
    let _ = error.write_all(b": ");
    let _ = error.write_all(reason);
    let _ = error.write_all(b"\n");
}

// Says on standard error itself that a file failed, and the system's reason.
fn failed(rt: &HostRuntime, name: &[u8], why: io::Error) -> Stop {
    let mut shown = Cursor::new([0u8; REASON_ROOM]);
    let _ = write!(shown, "{why}");
    let n = REASON_ROOM.min(shown.position() as usize);
    let bytes = shown.into_inner();
    say_failed(&mut rt.stderr(), name, reason_of(&bytes[..n]));
    Stop::Failed
}

// Writes bytes.
fn send<W: Write>(rt: &HostRuntime, output: &mut W, bytes: &[u8]) -> Result<(), Stop> {
    match output.write_all(bytes) {
        Ok(()) => Ok(()),
        Err(why) => Err(failed(rt, b"standard output", why)),
    }
}

// ---- texts

// Reads into the buffer until it is full or the input ends. Answers how many bytes came: of a reader whose bytes
// are known, those that it has no longer.
fn read_text<R: Read>(input: &mut R, buffer: &mut [u8]) -> io::Result<usize>
    ensures in_bounds { IfOk result (λ n. n ≤ length buffer.old) }
    ensures bytes { IfOk result (λ n. Consumes (R.remaining input.old) (R.remaining input.new) (take n buffer.new)) }
{
    let (count, ended) = streams::read_until_error(input, buffer);
    ended?;
    Ok(count)
}

// Opens the file of a name and reads it.
fn read_file(rt: &HostRuntime, name: &[u8], buffer: &mut [u8]) -> io::Result<usize>
    ensures { IfOk result (λ n. n ≤ length buffer.old) }
{
    let mut input = streams::open(rt, name)?;
    read_text(&mut input, buffer)
}

// The bytes of a word's content.
fn content_of(text: &[u8], word: Word) -> &[u8]
    ensures { length result.now ≤ length text.now }
{
    let stop = word.end.0.min(text.len());
    let start = word.start.0.min(stop);
    &text[start..stop]
}

// The columns of the slip on which a text is shown; or why it is not shown.
fn shown_at(text: &[u8], width: u32) -> Result<Columns, TextRefusal>
    ensures value { result ≡ shown_at text.now width }
    ensures shows { IfOk result (λ c. (c.0 ≡ width) × Shows text.now width) }
{
    limits::admit(text, TEXT_MOST)?;
    limits::columns_of(width)
}

// Whether a text can be shown at a width: 1, 2 and 3 as for the fill, or else 0.
#[tactic(auto, using(crate::proofs::Showing::answering))]
pub fn show_answer(text: &[u8], width: u32) -> Answer
    ensures { result ≡ show_answer text.now width }
{
    match shown_at(text, width) {
        Ok(_) => units::done(0),
        Err(why) => Answer::from(why),
    }
}

// ---- a run

// Where a run reads and writes. Why a file failed is said on standard error itself.
#[derive(Drop)]
pub struct Ends<R, W, E> {
    pub input: R,
    pub output: W,
    pub error: E,
}

// What a run works with: the system, and the room of the line that it writes.
#[derive(Drop)]
struct Desk<'a> {
    rt: &'a HostRuntime,
    room: [u8; LINE_ROOM],
}

impl Desk<'_> {
    // Reads the text that is asked for. Answers how many bytes came.
    fn load<R: Read, W, E>(
        &mut self,
        ends: &mut Ends<R, W, E>,
        block: &[u8],
        file: File,
        buffer: &mut [u8],
    ) -> Result<usize, Stop>
        ensures { IfOk result (λ n. n ≤ length buffer.old) }
    {
        let rt = self.rt;
        match file {
            File::Input => read_text(&mut ends.input, buffer).map_err(|why| failed(
                rt,
                b"standard input",
                why,
            )),
            File::Named(part) => {
                let name = block.get(part.start..part.end).unwrap_or_default();
                read_file(rt, name, buffer).map_err(|why| failed(rt, name, why))
            }
        }
    }

    // Writes a line that a closure says.
    fn put<W: Write, F: FnOnce(&mut Line<'_>)>(
        &mut self,
        output: &mut W,
        say: F,
    ) -> Result<(), Stop>
        requires room { (line : _) → line.now.len ≡ 0 → length line.now.room.now ≡ line_room → F.pre say line }
        requires keeps { (line : _) (left : _) → F.post say line tt left → left.now.room.ghost_name ≡ line.now.room.ghost_name }
    {
        let rt = self.rt;
        let mut line = Line::new(&mut self.room);
        say(&mut line);
        send(rt, output, line.as_bytes())
    }

    // Writes why a text is refused.
    fn refuse<R, W: Write, E: Write>(
        &mut self,
        ends: &mut Ends<R, W, E>,
        answer: Answer,
        width: u32,
        text: &[u8],
    ) -> Result<(), Stop> {
        self.put(&mut ends.error, |line| {
            refusals::refusal_line(line, answer, width, text, text)
        })?;
        Err(Stop::Refused)
    }

    // Writes the columns of a text.
    fn put_measure<R, W: Write, E: Write>(
        &mut self,
        ends: &mut Ends<R, W, E>,
        text: &[u8],
    ) -> Result<(), Stop> {
        let columns = match measure::display_width(text) {
            Ok(columns) => columns,
            Err(why) => return self.refuse(ends, Answer::from(why), WIDTH, text),
        };
        self.put(
            &mut ends.output,
            |line| told::measured_line(line, columns.0),
        )
    }

    // Writes the line of a word, its bytes as they are shown, and answers where the next word starts; none
    // after the last.
    fn put_word<R, W: Write, E>(
        &mut self,
        ends: &mut Ends<R, W, E>,
        text: &[u8],
        from: Offset,
    ) -> Result<Option<Offset>, Stop>
        requires { length text.now ≤ text_room }
    {
        let rt = self.rt;
        let mut line = Line::new(&mut self.room);
        let Some(told) = told::word_line(&mut line, text, from) else {
            return Ok(None);
        };
        shown::say_shown(&mut line, content_of(text, told.word));
        send(rt, &mut ends.output, line.as_bytes())?;
        send(rt, &mut ends.output, b"\n")?;
        Ok(Some(told.next))
    }

    // Writes the words of a text, and how many there are.
    fn put_words<R, W: Write, E: Write>(
        &mut self,
        ends: &mut Ends<R, W, E>,
        text: &[u8],
    ) -> Result<(), Stop>
        requires { length text.now ≤ text_room }
    {
        if let Err(why) = reader::open_at(text).answer {
            return self.refuse(ends, Answer::from(why), WIDTH, text);
        }
        let mut from = Offset(0);
        let mut count = 0;
        // a text has no more words than bytes
        for _ in 0..text.len() {
            let Some(next) = self.put_word(ends, text, from)? else {
                break;
            };
            from = next;
            count += 1;
        }
        self.put(&mut ends.output, |line| told::words_line(line, count))
    }

    // Fills a text and writes it.
    fn put_fill<R, W: Write, E: Write>(
        &mut self,
        ends: &mut Ends<R, W, E>,
        text: &mut [u8],
        width: u32,
    ) -> Result<(), Stop> {
        match fill::fill_inplace(text, width) {
            Ok(_) => send(self.rt, &mut ends.output, text),
            Err(why) => self.refuse(ends, Answer::from(why), width, text),
        }
    }

    // Writes whether a text is another one with its lines well broken.
    fn put_check<R, W: Write, E>(
        &mut self,
        ends: &mut Ends<R, W, E>,
        before: &[u8],
        after: &[u8],
        width: u32,
    ) -> Result<(), Stop> {
        match judge::check(before, after, width) {
            Ok(()) => self.put(&mut ends.output, told::accepted_line),
            Err(why) => {
                self.put(&mut ends.output, |line| {
                    refusals::refusal_line(line, Answer::from(why), width, before, after)
                })?;
                Err(Stop::Refused)
            }
        }
    }

    // Writes the rows of a text, and answers the tally of its lines.
    fn put_rows<R, W: Write, E>(
        &mut self,
        ends: &mut Ends<R, W, E>,
        text: &[u8],
        width: usize,
    ) -> Result<Tally, Stop>
        requires { Shows text.now width }
    {
        let rt = self.rt;
        let mut from = 0;
        let mut tally = shown::NO_LINES;
        while from < text.len() {
            let mut line = Line::new(&mut self.room);
            let printed = shown::row(&mut line, text, from, width);
            send(rt, &mut ends.output, line.as_bytes())?;
            tally = shown::counted(tally, printed.wide);
            from = printed.next;
        }
        Ok(tally)
    }

    // Writes the slip as a printer of some width prints a text.
    #[tactic(auto, using(crate::proofs::Showing::show_shows, crate::proofs::Showing::show_narrow))]
    fn put_slip<R, W: Write, E: Write>(
        &mut self,
        ends: &mut Ends<R, W, E>,
        text: &[u8],
        width: u32,
    ) -> Result<(), Stop> {
        let answer = show_answer(text, width);
        if answer.number != 0 {
            return self.refuse(ends, answer, width, text);
        }
        let columns = width as usize;
        self.put(&mut ends.output, |line| shown::ruler(line, columns))?;
        let tally = self.put_rows(ends, text, columns)?;
        self.put(&mut ends.output, |line| shown::summary(line, tally))
    }

    // Writes how `slip` is used.
    fn put_usage<W: Write>(&mut self, output: &mut W) -> Result<(), Stop> {
        for k in 0..USAGE_LINES {
            self.put(output, |line| usage::usage_line(line, k))?;
        }
        Ok(())
    }

    // Writes what is wrong with the arguments, and how `slip` is used. A word that is no argument is not named.
    fn put_misuse<R, W, E: Write>(
        &mut self,
        ends: &mut Ends<R, W, E>,
        block: &[u8],
        misuse: Misuse,
    ) -> Result<(), Stop> {
        let word = match block.get(misuse.word.start..misuse.word.end) {
            Some(word) if word.len() <= ARGUMENT_MOST => word,
            _ => b"",
        };
        self.put(
            &mut ends.error,
            |line| usage::misuse_line(line, misuse.wrong, word),
        )?;
        self.put_usage(&mut ends.error)?;
        Err(Stop::Failed)
    }

    // Does what the arguments ask for.
    fn act<R: Read, W: Write, E: Write>(
        &mut self,
        ends: &mut Ends<R, W, E>,
        block: &[u8],
        text: &mut [u8; TEXT_ROOM],
        other: &mut [u8; TEXT_ROOM],
    ) -> Result<(), Stop> {
        let plan = match asked::plan_of(block) {
            Ok(plan) => plan,
            Err(misuse) => return self.put_misuse(ends, block, misuse),
        };
        match plan {
            Plan::Help => self.put_usage(&mut ends.output),
            Plan::Measure(file) => {
                let n = self.load(ends, block, file, text)?;
                self.put_measure(ends, &text[..n])
            }
            Plan::Words(file) => {
                let n = self.load(ends, block, file, text)?;
                self.put_words(ends, &text[..n])
            }
            Plan::Fill(width, file) => {
                let n = self.load(ends, block, file, text)?;
                self.put_fill(ends, &mut text[..n], width)
            }
            Plan::Show(width, file) => {
                let n = self.load(ends, block, file, text)?;
                self.put_slip(ends, &text[..n], width)
            }
            Plan::Check(width, before, after) => {
                let n = self.load(ends, block, before, text)?;
                let m = self.load(ends, block, after, other)?;
                self.put_check(ends, &text[..n], &other[..m], width)
            }
        }
    }
}

// Does what the arguments ask for, and answers what the run ends with: 0 done or accepted, 1 refused, 2
// wrong arguments or a file that failed.
pub fn run<R: Read, W: Write, E: Write>(
    rt: &HostRuntime,
    block: &[u8],
    ends: &mut Ends<R, W, E>,
) -> u8 {
    let mut text = [0u8; TEXT_ROOM];
    let mut other = [0u8; TEXT_ROOM];
    let mut desk = Desk {
        rt,
        room: [0u8; LINE_ROOM],
    };
    match desk.act(ends, block, &mut text, &mut other) {
        Ok(()) => DONE,
        Err(stop) => u8::from(stop),
    }
}

// ---- arguments

// The bytes of an argument that are kept, by what `Env::arg` answers: one that has no room keeps so many
// that it stays too long.
fn kept(came: Result<usize, FillError>) -> usize
    ensures { result ≤ argument_room }
{
    match came {
        Ok(n) => n.min(ARGUMENT_ROOM),
        Err(FillError::TooLong) => ARGUMENT_ROOM,
        Err(FillError::NotPresent) => 0,
    }
}

// Adds an argument of the program to the block, and a 0. Answers how many bytes the block holds then.
fn add_argument(rt: &HostRuntime, block: &mut [u8], at: usize, k: usize) -> usize
    requires { at + argument_room + 1 ≤ length block.old }
    ensures { result ≤ at + argument_room + 1 }
{
    let room = at + ARGUMENT_ROOM;
    let came = rt.arg(k, &mut block[at..room]);
    let end = at + kept(came);
    block[end] = 0;
    end + 1
}

// Whether the program has so many arguments, the one at 0 too.
fn has_argument(rt: &HostRuntime, k: usize) -> bool {
    !matches!(rt.arg(k, &mut []), Err(FillError::NotPresent))
}

// Gathers the arguments of the program from a place on: so many that one too many is seen. Answers how
// many bytes the block holds then.
pub fn gather(rt: &HostRuntime, block: &mut [u8], first: usize) -> usize
    requires block_len { length block.old ≡ block_room }
    requires first_bound { first ≤ 2 }
    ensures { result ≤ length block.old }
{
    let mut at = 0;
    for k in 0..ARGUMENTS {
        if !has_argument(rt, first + k) {
            break;
        }
        at = add_argument(rt, block, at, first + k);
    }
    at
}
