// Instructions of two words in the workspace: the open code and the finished argument code.
// An instruction's words: opcode * 2^24 + sub * 2^16 + B, then A. A full region is left as it is.
ghost use Rattle.std.specs.Prelude.{◌≡◌, ◌+◌, ◌*◌, ◌<◌};
ghost use Rattle.code.specs.Segments.{emitted, emitted_top, targeted, front_of, break_resolved, range_resolved, Idle};
ghost use Rattle.code.specs.Segments.{relocated_one, relocated_range, moved, moved_count};

use program::opcodes::Opcode;
use program::targets;
use workspace::layout;
use workspace::words::{plus, put_pair, put_word, word};

// A Break and a Continue that wait for their loop, by their first words: no opcodes of the card.
#[derive(Clone, Copy, Debug, PartialEq, Eq)]
pub enum Waiting {
    Break = 0xfa00_0000,
    Continue = 0xfb00_0000,
}

// A variant's number is had by `as` alone.
impl From<Waiting> for u32 {
    ghost from_gives = { λ w front. front ≡ front_of w };

    fn from(w: Waiting) -> u32 {
        w as u32
    }
}

// Where a loop's Continues lead, and where its Breaks do: places of the open segment.
#[derive(Clone, Copy, Drop)]
pub struct Ends {
    pub check: u32,
    pub cleanup: u32,
}

impl Ends {
    // The segment's start: no loop is open.
    pub const START: Ends = Ends {
        check: 0,
        cleanup: 0,
    };
}

// The first word of a Jump. By `as`: a constant can call no function.
const JUMP: u32 = Opcode::Jump as u32 * 16777216;

// Appends an instruction to the open code, and gives the place after it. An instruction's two words, as they stand and as the definitions take them.
#[tactic(auto, unfolding(crate::specs::Segments::emitted, crate::specs::Segments::emitted_top))]
pub fn emit(ws: &mut [u32], top: u16, front: u32, back: u32) -> u16
    ensures { (result ≡ emitted_top top) × (ws.new ≡ emitted ws.old top front back) }
{
    if top < layout::CODE_ROOM {
        put_pair(ws, usize::from(top) * 2, front, back);
        return top + 1;
    }
    top
}

// Gives the instruction at a place of the open code its target.
#[tactic(auto, unfolding(crate::specs::Segments::targeted))]
pub fn set_target(ws: &mut [u32], at: u16, target: u32)
    ensures { ws.new ≡ targeted ws.old at target }
{
    if at < layout::CODE_ROOM {
        put_word(ws, usize::from(at) * 2 + 1, target);
    }
}

// A Break or Continue that waits becomes a Jump to its loop's end or check. How far a place may lie is asked of each sum as it stands: a type for it
// would be made and taken apart at each step.
#[tactic(auto, unfolding(crate::specs::Segments::break_resolved))]
fn resolve_break(ws: &mut [u32], at: usize, ends: Ends)
    requires { at < 4294967296 }
    ensures { ws.new ≡ break_resolved ws.old at ends.check ends.cleanup }
{
    let i = at * 2;
    let front = word(ws, i);
    if front == u32::from(Waiting::Break) {
        put_pair(ws, i, JUMP, ends.cleanup);
        return;
    }
    if front == u32::from(Waiting::Continue) {
        put_pair(ws, i, JUMP, ends.check);
    }
}

// Whether eight instructions from a place on are there, and none of them waits: what waits has the top bit in its first word.
// Looked at once in eight: with a branch at each, a search is slower, by a third in the pools.
#[tactic(auto, using(std::proofs::lemmas::Nat::le_or_l, std::proofs::lemmas::Nat::le_or_r))]
fn eight_idle(ws: &[u32], at: usize) -> bool
    requires { at < 4294967296 }
    ensures { Idle ws.now at 8 result }
{
    let first = at * 2;
    if ws.len() < first + 15 {
        return false;
    }
    let mut fronts = 0;
    for k in 0..8 {
        fronts |= ws[first + k * 2];
    }
    fronts < 0x8000_0000
}

// The Breaks and Continues among `count` instructions, one by one.
#[tactic(auto, using(crate::proofs::Runs::aim_next), unfolding(crate::specs::Segments::range_resolved))]
fn resolve_each(ws: &mut [u32], from: usize, count: usize, ends: Ends)
    requires { from + count < 4294967296 }
    ensures { ws.new ≡ range_resolved ws.old from count ends.check ends.cleanup }
{
    for i in 0..count {
        resolve_break(ws, from + i, ends);
    }
}

// Aims the Breaks and Continues of a loop's body: `count` instructions from a place of the open code on, eight passed at once where none of them waits.
pub fn resolve_breaks(ws: &mut [u32], from: u16, count: u16, ends: Ends)
    ensures { ws.new ≡ range_resolved ws.old from count ends.check ends.cleanup }
{
    let start = usize::from(from);
    let all = usize::from(count);
    for k in 0..all.div_ceil(8) {
        let passed = k * 8;
        if !eight_idle(ws, start + passed) {
            resolve_each(ws, start + passed, (all - passed).min(8), ends);
        }
    }
}

// Copies an instruction, `by` added to its target where it has one.
#[tactic(auto, unfolding(crate::specs::Segments::relocated_one))]
fn move_one(ws: &mut [u32], from: usize, to: usize, by: u32)
    requires { (from < 4294967296) × (to < 4294967296) }
    ensures { ws.new ≡ relocated_one ws.old from to by }
{
    let front = word(ws, from);
    let back = word(ws, from + 1);
    let [opcode, ..] = front.to_be_bytes();
    let s = targets::shift(opcode, by);
    put_pair(ws, to, front, plus(back, s));
}

// Copies `count` of them.
#[tactic(auto, using(crate::proofs::Runs::move_next), unfolding(crate::specs::Segments::relocated_range))]
fn move_all(ws: &mut [u32], from: usize, to: usize, count: usize, by: u32)
    requires { (from + count * 2 < 4294967296) × (to + count * 2 < 4294967296) }
    ensures { ws.new ≡ relocated_range ws.old from to count by }
{
    for i in 0..count {
        move_one(ws, from + i * 2, to + i * 2, by);
    }
}

// Puts `count` instructions of the open code behind the finished ones, their start there added to their targets, and gives how many are finished then.
#[tactic(auto, unfolding(crate::specs::Segments::moved, crate::specs::Segments::moved_count))]
pub fn move_segment(ws: &mut [u32], from: u16, count: u16, finished: u16) -> u16
    ensures { (result ≡ moved_count count finished) × (ws.new ≡ moved ws.old from count finished) }
{
    let end = finished.saturating_add(count);
    if end <= layout::CODE_ROOM {
        let to = layout::FINISHED + usize::from(finished) * 2;
        move_all(
            ws,
            usize::from(from) * 2,
            to,
            usize::from(count),
            u32::from(finished),
        );
        return end;
    }
    finished
}
