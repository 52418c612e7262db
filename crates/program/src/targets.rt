// The opcodes that have a target.
ghost use Rattle.std.specs.Prelude.{◌≡◌};
ghost use Rattle.program.specs.Targets.{shift_of};

use crate::opcodes::Opcode;

// What is added to an instruction's A: `base` where A is a target. Of any byte: what stands in the workspace need be no opcode.
pub fn shift(op: u8, base: u32) -> u32
    ensures { result ≡ shift_of op base }
{
    match Opcode::try_from(op) {
        Ok(Opcode::DivGuard) => base,
        Ok(Opcode::AndStep) => base,
        Ok(Opcode::OrStep) => base,
        Ok(Opcode::Jump) => base,
        Ok(Opcode::JumpIfFalsy) => base,
        Ok(Opcode::HandlerPush) => base,
        Ok(Opcode::HandlerPop) => base,
        Ok(Opcode::PointerEnter) => base,
        Ok(Opcode::LoopBegin) => base,
        Ok(Opcode::LoopCheck) => base,
        Ok(Opcode::EachBegin) => base,
        Ok(Opcode::EachNextVar) => base,
        Ok(Opcode::EachNextTemp) => base,
        _ => 0,
    }
}
