// Replays the stored answers of the crate textwrap that come on standard input, and writes a line for each
// run of records of one kind: how many were replayed, how many agreed, how many were ties, and the number of
// the first that differs.
//
//     vectors < ANSWERS
//
// It only moves bytes: what a record asks, whether the answer agrees and how records are counted is decided
// by `replay`. `rust/vectors` makes the file and says what is in it.
#![tactic(auto)]

use replay::{CutShort, HEAD_BYTES, Head, Kind, Tally, Verdict};
use std::io;

// The most bytes that a record asks or stores.
const PART_MOST: usize = 65535;

// The kind of the last record, if there was one, how the run of its kind stands, and the number of the last
// record.
#[derive(Clone, Copy, Default)]
struct State {
    kind: Option<Kind>,
    tally: Tally,
    number: u64,
}

impl State {
    // Writes how the last run of records of one kind came out, if there is one. Each piece is a write of its own:
    // an output that has little room left takes the pieces that fit.
    fn put_run(self, rt: &HostRuntime) -> io::Result<()> {
        let tally = self.tally;
        let Some(kind) = self.kind else {
            return Ok(());
        };
        if tally.replayed == 0 {
            return Ok(());
        }
        print!(rt; "{kind}")?;
        print!(rt; ": ")?;
        rt.print(tally.replayed)?;
        print!(rt; " replayed, ")?;
        rt.print(tally.agreed)?;
        print!(rt; " agreed, ")?;
        rt.print(tally.tied)?;
        print!(rt; " tied")?;
        if let Some(first) = tally.first {
            print!(rt; ", first that differs: record ")?;
            rt.print(first)?;
        }
        println!(rt; "")
    }

    // Writes how the last run came out and why no further record is read, with the number of a record.
    fn stopped(self, rt: &HostRuntime, why: &str, number: u64) -> io::Result<Option<State>> {
        self.put_run(rt)?;
        print!(rt; "{why} record ")?;
        rt.print(number)?;
        println!(rt; "")?;
        Ok(None)
    }

    // The run that a record of a kind goes on with: the last one, or a new one after the last is written.
    fn run_of(self, rt: &HostRuntime, kind: Option<Kind>) -> io::Result<Tally> {
        if self.kind == kind {
            return Ok(self.tally);
        }
        self.put_run(rt)?;
        Ok(Tally::default())
    }

    // Counts a record by its verdict. Answers how the replay goes on, if it does.
    fn after(
        self,
        rt: &HostRuntime,
        kind: Option<Kind>,
        verdict: Verdict,
    ) -> io::Result<Option<State>> {
        let number = replay::one_more(self.number);
        match verdict {
            Verdict::Unknown => self.stopped(rt, "stopped at a kind that is not known:", number),
            Verdict::Turn => {
                self.run_of(rt, kind)?;
                println!(rt; "wrong on purpose from here on")?;
                Ok(Some(State {
                    kind,
                    tally: Tally::default(),
                    number,
                }))
            }
            Verdict::Agreed | Verdict::Tied | Verdict::Differs => {
                let tally = replay::counted(self.run_of(rt, kind)?, verdict, number);
                Ok(Some(State {
                    kind,
                    tally,
                    number,
                }))
            }
        }
    }

    // Reads what a record asks and stores, and replays it. Answers how the replay goes on, if it does.
    fn replay_record(
        self,
        rt: &HostRuntime,
        head: Head,
        asked: &mut [u8; PART_MOST],
        stored: &mut [u8; PART_MOST],
    ) -> io::Result<Option<State>> {
        let n = usize::from(head.asked);
        let m = usize::from(head.stored);
        let first = streams::read_full(&mut rt.stdin(), &mut asked[..n]);
        let second = streams::read_full(&mut rt.stdin(), &mut stored[..m]);
        if replay::is_cut(head.asked, head.stored, first + second) {
            return self.stopped(rt, "the input is cut after", self.number);
        }
        let verdict = replay::judge(head.kind, head.width, &mut asked[..n], &stored[..m]);
        self.after(rt, Kind::try_from(head.kind).ok(), verdict)
    }

    // Reads one record and replays it. Answers how the replay goes on, if it does.
    fn replay_one(
        self,
        rt: &HostRuntime,
        asked: &mut [u8; PART_MOST],
        stored: &mut [u8; PART_MOST],
    ) -> io::Result<Option<State>> {
        let mut space = [0u8; HEAD_BYTES];
        let came = streams::read_full(&mut rt.stdin(), &mut space);
        match replay::head_of(&space[..came]) {
            Ok(Some(head)) => self.replay_record(rt, head, asked, stored),
            Ok(None) => self.stopped(rt, "the input ends after", self.number),
            Err(CutShort) => self.stopped(rt, "the input is cut after", self.number),
        }
    }
}

// Replays the records of standard input, in order.
fn replay_all(
    rt: &HostRuntime,
    asked: &mut [u8; PART_MOST],
    stored: &mut [u8; PART_MOST],
) -> io::Result<()> {
    let mut state = State::default();
    // a proved loop ends: this many records come in no day, and in no thousand years
    for _ in 0..u64::MAX {
        let Some(next) = state.replay_one(rt, asked, stored)? else {
            break;
        };
        state = next;
    }
    Ok(())
}

fn main(rt: HostRuntime) -> io::Result<()> {
    replay_all(&rt, &mut [0; PART_MOST], &mut [0; PART_MOST])
}
