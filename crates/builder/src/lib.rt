// The builder: the lent workspace's words, and beside them how much of each region is in use, a waiting Push, depth, flags and the first refusal.
#![tactic(auto)]

mod refusing;
pub mod segments;

ghost use Rattle.builder.specs.Done.{Did};
ghost use Rattle.builder.specs.Steps.{emitted, flushed, put, put_const, still, pushed};

use code::segment;
use depth::Depth;
use program::opcodes::Opcode;
use program::{ConstIdx, Flags};
use workspace::counts::{Listed, Pools};

// The first words of Push, PushConst and Const. By `as`: a constant can call no function.
const PUSH: u32 = Opcode::Push as u32 * 16777216;

const PUSH_CONST: u32 = Opcode::PushConst as u32 * 16777216;

const CONST: u32 = Opcode::Const as u32 * 16777216;

// The code: the end of the open code, where its open segment begins, the end of the finished code, and whether a Push waits.
#[derive(Clone, Copy, Drop)]
pub struct OpenCode {
    pub top: u16,
    pub base: u16,
    pub finished: u16,
    pub waiting: bool,
}

// How much of each region is in use, the code, the depth, the flags, and the first refusal, of the caller's type R.
#[derive(Clone, Copy, Drop)]
pub struct State<R> {
    pub pools: Pools,
    pub listed: Listed,
    pub code: OpenCode,
    pub depth: Depth,
    pub flags: Flags,
    pub refusal: Option<R>,
}

// The state, and the workspace's words that were lent.
#[derive(Drop)]
pub struct Builder<'a, R> {
    pub state: State<R>,
    pub words: &'a mut [u32],
}

impl<'a, R: Copy + Drop> Builder<'a, R> {
    // Appends an instruction to the open code. An instruction's two words, as they stand and as the definitions take them.
    #[tactic(auto, unfolding(crate::specs::Steps::emitted))]
    pub fn emit(&mut self, front: u32, back: u32)
        ensures { Did self.old self.new (emitted front back) }
    {
        let top = segment::emit(self.words, self.state.code.top, front, back);
        self.state.code.top = top;
    }

    // A Push that waits comes before anything that is no constant.
    #[tactic(auto, unfolding(crate::specs::Steps::flushed))]
    pub fn flush(&mut self)
        ensures { Did self.old self.new flushed }
    {
        if self.state.code.waiting {
            self.state.code.waiting = false;
            self.emit(PUSH, 0);
        }
    }

    #[tactic(auto, unfolding(crate::specs::Steps::put))]
    pub fn put(&mut self, front: u32, back: u32)
        ensures { Did self.old self.new (put front back) }
    {
        self.flush();
        self.emit(front, back);
    }

    // Const, or PushConst where a Push waits.
    #[tactic(auto, unfolding(crate::specs::Steps::put_const))]
    pub fn put_const(&mut self, index: ConstIdx)
        ensures { Did self.old self.new (put_const index.0) }
    {
        if self.state.code.waiting {
            self.state.code.waiting = false;
            self.emit(PUSH_CONST, index.0);
            return;
        }
        self.emit(CONST, index.0);
    }

    // A Push waits, and one more operand is on the stack.
    #[tactic(auto, unfolding(crate::specs::Steps::pushed))]
    pub fn push(&mut self)
        ensures { Did self.old self.new (still pushed) }
    {
        self.state.depth.push_operand();
        self.state.code.waiting = true;
    }
}
