// Writes the program image of the tree image on standard input to standard output; of a refusal, one line to standard error.
#![tactic(auto)]

// `listing` has these lines too: one function over both would take its program as a closure, and be no shorter.
fn main(rt: HostRuntime) {
    let mut room = bench::input();
    let tree = bench::read(&mut rt.stdin(), &mut room);
    let done = bench::compiling::compile(&rt, tree);
    let _ = bench::report(&rt, done.written);
}
