// The listing of a tree image's program, line by line on standard output.
ghost use Rattle.std.specs.Prelude.{◌≡◌, ◌≤◌, length};
ghost use Rattle.semantics.specs.Link.{refusal_of};
ghost use Rattle.codegen.specs.Build.{shown};

use crate::{CLOSING, Done};
use std::io;

// Where the first instruction stands in a program image, behind the image's length and the count of its instructions.
const CODE: usize = 9;

// The listing of the program of the tree image `tree`, or its refusal. It stops where standard output takes no more.
pub fn list(rt: &impl Print, tree: &[u8]) -> Done
    ensures { (shown result.answer).number ≡ refusal_of tree.now }
{
    let mut out = crate::output();
    let answer = crate::answer(tree, &mut out);
    let written = match answer {
        Ok(n) => listing(rt, &out[..n]),
        Err(why) => println!(rt; "refused {}", u8::from(why)),
    };
    Done { answer, written }
}

fn listing(rt: &impl Print, image: &[u8]) -> io::Result<()>
    requires { CLOSING ≤ length image.now }
{
    for i in 0..wire::get_u32(image, 5, 0) {
        instruction(rt, image, i)?;
    }
    closing(rt, image, image.len() - CLOSING)
}

// Index, opcode, sub, A and B. A usize has no `From` of a u32, so `as` widens it.
fn instruction(rt: &impl Print, image: &[u8], i: u32) -> io::Result<()> {
    let at = CODE + 8 * (i as usize);
    let opcode = wire::get_u8(image, at, 0);
    let sub = wire::get_u8(image, at, 1);
    let a = wire::get_u32(image, at, 2);
    let b = wire::get_u16(image, at, 6);
    println!(rt; "{i} {opcode} {sub} {a} {b}")
}

fn closing(rt: &impl Print, image: &[u8], at: usize) -> io::Result<()> {
    let stack = wire::get_u16(image, at, 0);
    let loops = wire::get_u16(image, at, 2);
    let handlers = wire::get_u16(image, at, 4);
    let flags = wire::get_u16(image, at, 6);
    let float_loop = wire::get_u8(image, at, 8);
    println!(rt; "depths {stack} {loops} {handlers}")?;
    println!(rt; "flags {flags}")?;
    println!(rt; "float_loop {float_loop}")
}
