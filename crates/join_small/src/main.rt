// Reads a job of at most 16 poses, 64 edges and 16 fixed entries from standard input and prints one line (document 02, Wish 1).
#![tactic(auto)]

fn main(rt: HostRuntime) {
    let mut bytes = join_job::small_input();
    match input::read_input(&mut rt.stdin(), &mut bytes) {
        Ok(n) => line::say(
            &mut rt.stdout(),
            join_job::said(join_job::join_small(&bytes[..n])),
        ),
        Err(_) => line::say(&mut rt.stderr(), line::unreadable()),
    }
}
