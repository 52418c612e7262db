// What the programs of the bench do with a tree image, and the buffers that they lend to the generator.
#![tactic(auto)]

pub mod compiling;
pub mod listing;

ghost use Rattle.std.specs.Prelude.{◌≡◌, ◌+◌, ◌≤◌, length, take};
ghost use Rattle.std.specs.Io.KnownBytes.{Consumes};
ghost use Rattle.workspace.specs.Layout.{WORDS};
ghost use Rattle.ast.specs.Header.{LONGEST};
ghost use Rattle.semantics.specs.Link.{refusal_of};
ghost use Rattle.semantics.specs.Room.{IMAGE_ROOM};
ghost use Rattle.codegen.specs.Build.{shown};
ghost use Rattle.bench.specs.Answers.{answer_in, output_after};

use answers::refusals::Refusal;
use ast::header;
use std::io;
use std::io::Read;
use workspace::layout;

// One byte more than any tree image has: longer input is refused by question 2.
const INPUT: usize = header::LONGEST + 1;

const WORDS: usize = layout::WORDS;

// Room for the program image of every tree image, IMAGE_ROOM in crates/semantics/specs/Room.antt. The longest image that was found has 56,827 bytes.
const ROOM: usize = 98304;

// The closing fields of a program image: stack, loops, handlers, flags (2 bytes each), float_loop (1).
const CLOSING: usize = 9;

// What a program answered; and whether standard output took all that it wrote, of which nothing is known beforehand.
#[derive(Drop)]
pub struct Done {
    pub answer: Result<usize, Refusal>,
    pub written: io::Result<()>,
}

// The buffers are arrays: where memory for a `Vec` runs out, `listing` would answer 2 in place of an error.
pub fn input() -> [u8; INPUT]
    ensures { LONGEST + 1 ≡ length result }
{
    [0; INPUT]
}

pub fn output() -> [u8; ROOM]
    ensures { IMAGE_ROOM ≡ length result }
{
    [0; ROOM]
}

fn workspace() -> [u32; WORDS]
    ensures { WORDS ≡ length result }
{
    [0; WORDS]
}

// What `input` gives, as far as `room` goes. A read that fails ends it. The programs lend it the plain standard input: a lock on that would bring a window of
// 8 KiB along, and the room is there.
pub fn read<'a, R: Read>(input: &mut R, room: &'a mut [u8]) -> &'a [u8]
    ensures within { length result.now ≤ length room.old }
    ensures bytes { Consumes (R.remaining input.old) (R.remaining input.new) result.now }
{
    let filled = fill(input, room);
    &room[..filled]
}

// How many bytes of `room` are filled. Each read says how many more, so no iterator can count them.
fn fill<R: Read>(input: &mut R, room: &mut [u8]) -> usize
    ensures within { result ≤ length room.new }
    ensures bytes { Consumes (R.remaining input.old) (R.remaining input.new) (take result room.new) }
{
    let mut filled = 0;
    while filled < room.len() {
        match input.read(&mut room[filled..]) {
            Ok(0) | Err(_) => return filled,
            Ok(n) => filled += n,
        }
    }
    filled
}

// The answer to the tree image `tree`; its program image in `out` where it is accepted. Every program asks here.
pub fn answer(tree: &[u8], out: &mut [u8]) -> Result<usize, Refusal>
    ensures answered { shown result ≡ answer_in tree.now (length out.old) }
    ensures output { out.new ≡ output_after tree.now out.old }

    // The length is within the output, and an image's is that of its closing fields or more.
    ensures within { (shown result).length ≤ length out.old }
    ensures closed { (shown result).number ≡ 0 → CLOSING ≤ (shown result).length }

    // With the room of `output` only questions 2 to 8 refuse.
    ensures number { IMAGE_ROOM ≤ length out.old → (shown result).number ≡ refusal_of tree.now }
{
    let mut ws = workspace();
    codegen::build(tree, &mut ws, out)
}

// Says so where standard output is full or closed; hands on whether all was written.
pub fn report(rt: &impl Eprint, written: io::Result<()>) -> io::Result<()>
    ensures { result ≡ written }
{
    if written.is_err() {
        // Where standard error takes nothing either, nobody can be told.
        let _ = eprintln!(rt; "not written: standard output took only a part of it, or nothing");
    }
    written
}
