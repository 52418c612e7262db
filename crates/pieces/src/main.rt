// Prints the listings of many tree images: on standard input each has a 4-byte length before it.
// The stored input is 01's bench pieces: 1 to 12 are M1 to M12, 13 and 14 HostMath with 255 and with 256 children, 15 and 16 levels 31 and 32,
// 17 and 18 stack 16 and 17. Then, for refusals 2, 3 and 6: no bytes, an unknown operator, a resource. Then three of 01's slips: a Conditional in
// a query's argument, an equality with a Hash payload, an assignment to a MemberAccessor whose payload is Entity. The stored output is the oracle's.
#![tactic(auto)]

ghost use Rattle.std.specs.Prelude.{length};
ghost use Rattle.std.specs.Iterator.{at_most};

use std::io;

// The most bytes that are taken of the input, and so the most images. The buffer is an array, as those of `bench` are.
const MOST: usize = 65536;

fn main(rt: HostRuntime) {
    let mut room = [0; MOST];
    let images = bench::read(&mut rt.stdin(), &mut room);
    let _ = bench::report(&rt, list_all(&rt, images));
}

// Every image under its number. It stops where standard output takes no more.
fn list_all(rt: &impl Print, images: &[u8]) -> io::Result<()> {
    for (number, image) in (1..=MOST).zip(Pieces(images)) {
        println!(rt; "piece {number}")?;
        bench::listing::list(rt, image).written?;
    }
    Ok(())
}

// The images of a list. One that is cut off is taken as it is, a length that is cut off filled up with zeros.
// A usize has no `From` of a u32, so `as` widens a length.
#[derive(Drop)]
struct Pieces<'a>(&'a [u8]);

impl<'a> Iterator for Pieces<'a> {
    type Item = &'a [u8];

    ghost remaining = { λ pieces. at_most (length pieces.0.now) };

    fn next(&mut self) -> Option<&'a [u8]> {
        let list = self.0;
        if list.is_empty() {
            return None;
        }
        let (length, rest) = list.split_at(list.len().min(4));
        let count = wire::get_u32(length, 0, 0) as usize;
        let (image, rest) = rest.split_at(rest.len().min(count));
        self.0 = rest;
        Some(image)
    }
}
