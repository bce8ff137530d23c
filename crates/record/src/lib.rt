// The records of the job program, on bytes: what a job's head asks for, what is answered to a job, and
// the bytes of a reply. All that the program decides is decided here; the program itself only moves
// bytes. How a text is filled stands in `fill`.
#![tactic(auto)]

ghost use Rattle.std.specs.Prelude.{◌≡◌, ◌<◌, ◌+◌, ◌*◌, ◌/◌, ◌%◌};
ghost use Rattle.record.specs.Record.{is_job, head_of, kept_of, past_of, reply_head, reply_of, text_after, settled};

use units::{Answer, Refusal, TEXT_MOST};

// The bytes of a job before its text.
pub const HEAD_BYTES: usize = 5;

// The head of a job: its line width, and the length of its text.
#[derive(Clone, Copy)]
pub struct Job {
    pub width: u8,
    pub len: u16,
}

// What is written in reply: a head, and whether the text follows it; and whether a further record is read.
#[derive(Clone, Copy)]
pub struct Reply {
    pub head: [u8; 7],
    pub filled: bool,
    pub more: bool,
}

// What the bytes that came of a record's head are: the head of a job; nothing, where the input ends
// between two records; or what is refused.
#[tactic(auto, unfolding(crate::specs::Record::head_of))]
pub fn head_of(head: &[u8]) -> Result<Option<Job>, Answer>
    ensures { result ≡ head_of head.now }
{
    match head {
        [] => Ok(None),
        [_] => Err(Refusal::Cut.at(0)),
        [first, second, ..] if [*first, *second] != *b"WJ" => Err(Refusal::WrongMark.at(0)),
        [_, _, width, high, low, ..] => Ok(Some(Job {
            width: *width,
            len: u16::from_be_bytes([*high, *low]),
        })),
        _ => Err(Refusal::Cut.at(0)),
    }
}

// How many bytes of a text are kept: no more than the buffer has.
pub fn kept(len: u16) -> usize
    ensures { result ≡ kept_of len }
{
    usize::from(len).min(TEXT_MOST)
}

// How many bytes of a text are read past after those that are kept.
pub fn past(len: u16) -> usize
    ensures { result ≡ past_of len }
{
    usize::from(len).saturating_sub(TEXT_MOST)
}

// The head of a reply: its mark, the answer, the count or place, and the length of the text.
fn reply_head(number: u32, value: u64, len: u16) -> [u8; 7]
    ensures { result ≡ reply_head number value len }
{
    let [.., answer] = number.to_be_bytes();
    let [.., value_high, value_low] = value.to_be_bytes();
    let [len_high, len_low] = len.to_be_bytes();
    let [w, r] = *b"WR";
    [w, r, answer, value_high, value_low, len_high, len_low]
}

// The reply that gives an answer to a record whose text has a length.
#[tactic(auto, unfolding(crate::specs::Record::reply_of))]
pub fn reply_of(answer: Answer, len: u16) -> Reply
    ensures { result ≡ reply_of answer len }
{
    let number = answer.number;
    if number == 0 {
        return Reply {
            head: reply_head(0, answer.count, len),
            filled: true,
            more: true,
        };
    }
    let stops = number == Refusal::WrongMark.number() || number == Refusal::Cut.number();
    Reply {
        head: reply_head(number, answer.place, 0),
        filled: false,
        more: !stops,
    }
}

// Fills the text of a job, of whose bytes so many came, and answers the reply; on refusal the text stays
// as it was.
#[tactic(auto, unfolding(crate::specs::Record::answer_to, crate::specs::Record::text_after))]
pub fn settle(text: &mut [u8], job: Job, came: usize) -> Reply
    ensures value { result ≡ settled job.width job.len came text.old }
    ensures text_after { text.new ≡ text_after job.width job.len came text.old }
{
    let n = usize::from(job.len);
    if came < n {
        return reply_of(Refusal::Cut.at(0), job.len);
    }
    if TEXT_MOST < n {
        return reply_of(Refusal::TooLong.at(n), job.len);
    }
    let filled = fill::fill_inplace(text, u32::from(job.width));
    reply_of(limits::answer_of(filled), job.len)
}
