// The current and the deepest nesting of operands, loops and handlers. A counter at 65535 stays there.
//
// Each change is a function by value, the core. The methods are lent the counters and put what their core makes in their place.
// Operands, loops and handlers have a core each: the call of a helper over a pair of counters would be as long as the lines that it stands for.
#![tactic(auto)]

ghost use Rattle.std.specs.Prelude.{◌≡◌};
ghost use Rattle.depth.specs.Counters.{pushed, popped, loop_entered, loop_left, handler_entered, handler_left};

use program::Depths;

#[derive(Clone, Copy, Drop)]
pub struct Depth {
    pub now: Depths,
    pub max: Depths,
}

// The cores, by value.
fn pushed(mut d: Depth) -> Depth
    ensures { result ≡ pushed d }
{
    let raised = d.now.stack.saturating_add(1);
    d.max.stack = d.max.stack.max(raised);
    d.now.stack = raised;
    d
}

fn popped(mut d: Depth, k: u16) -> Depth
    ensures { result ≡ popped d k }
{
    d.now.stack = d.now.stack.saturating_sub(k);
    d
}

fn loop_entered(mut d: Depth) -> Depth
    ensures { result ≡ loop_entered d }
{
    let raised = d.now.loops.saturating_add(1);
    d.max.loops = d.max.loops.max(raised);
    d.now.loops = raised;
    d
}

fn loop_left(mut d: Depth) -> Depth
    ensures { result ≡ loop_left d }
{
    d.now.loops = d.now.loops.saturating_sub(1);
    d
}

fn handler_entered(mut d: Depth) -> Depth
    ensures { result ≡ handler_entered d }
{
    let raised = d.now.handlers.saturating_add(1);
    d.max.handlers = d.max.handlers.max(raised);
    d.now.handlers = raised;
    d
}

fn handler_left(mut d: Depth) -> Depth
    ensures { result ≡ handler_left d }
{
    d.now.handlers = d.now.handlers.saturating_sub(1);
    d
}

// The counters are lent, and changed where they are.
impl Depth {
    // An operand is pushed.
    pub fn push_operand(&mut self)
        ensures { self.new ≡ pushed self.old }
    {
        *self = pushed(*self);
    }

    // `k` operands fewer on the stack.
    pub fn pop_operands(&mut self, k: u16)
        ensures { self.new ≡ popped self.old k }
    {
        *self = popped(*self, k);
    }

    pub fn enter_loop(&mut self)
        ensures { self.new ≡ loop_entered self.old }
    {
        *self = loop_entered(*self);
    }

    pub fn leave_loop(&mut self)
        ensures { self.new ≡ loop_left self.old }
    {
        *self = loop_left(*self);
    }

    pub fn enter_handler(&mut self)
        ensures { self.new ≡ handler_entered self.old }
    {
        *self = handler_entered(*self);
    }

    pub fn leave_handler(&mut self)
        ensures { self.new ≡ handler_left self.old }
    {
        *self = handler_left(*self);
    }
}
