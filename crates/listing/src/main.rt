// Prints the listing of the tree image on standard input: each instruction as index, opcode, sub, A and B, then the closing fields; or its refusal.
#![tactic(auto)]

// `compile` has these lines too: one function over both would take its program as a closure, and be no shorter.
fn main(rt: HostRuntime) {
    let mut room = bench::input();
    let tree = bench::read(&mut rt.stdin(), &mut room);
    let done = bench::listing::list(&rt, tree);
    let _ = bench::report(&rt, done.written);
}
