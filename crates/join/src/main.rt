// Reads a job of at most 256 poses, 1,024 edges and 256 fixed entries from standard input. Where its run succeeds, the job with the new poses goes to standard
// output; the line goes to standard error, and a second one there says whether it may be printed.
#![tactic(auto)]

fn join(rt: &HostRuntime, bytes: &[u8]) {
    let mut out = join_job::full_output();
    let j = join_job::join(bytes, &mut out);
    let n = j.bytes;
    let r = j.report;
    let mut errors = rt.stderr();
    if rt.write_all(&out[..n]).is_ok() {
        line::say(&mut errors, join_job::said(r));
        line::say(&mut errors, join_job::second_said(r));
    } else {
        line::say(&mut errors, line::unwritten());
    }
}

fn main(rt: HostRuntime) {
    let mut bytes = join_job::full_input();
    match input::read_input(&mut rt.stdin(), &mut bytes) {
        Ok(n) => join(&rt, &bytes[..n]),
        Err(_) => line::say(&mut rt.stderr(), line::unreadable()),
    }
}
