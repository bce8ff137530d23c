// The job program: it reads jobs from standard input and writes a reply to each on standard output, as
// document 01 says under "Job program".
//
//     job < JOBS > REPLIES
#![tactic(auto)]

use std::io;
use units::TEXT_MOST;

fn main(rt: HostRuntime) -> io::Result<()> {
    let mut buffer = [0; TEXT_MOST];
    jobs::serve(&mut buffer, &mut rt.stdin(), &mut rt.stdout())
}
