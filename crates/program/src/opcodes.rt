// The opcodes, in the order of `Instr`, each with its number on the card.
ghost use Rattle.std.specs.Prelude.{◌≡◌, MatchResult};
ghost use Rattle.program.specs.Opcodes.{number_of, NoOpcode};

#[derive(Clone, Copy, Debug, PartialEq, Eq)]
pub enum Opcode {
    Const = 1,
    Hash = 2,
    Resource = 3,
    This = 4,
    LoadVar = 5,
    LoadTemp = 6,
    LoadCtx = 7,
    ArrayElement = 8,
    Member = 9,
    StoreVar = 10,
    StoreTemp = 11,
    StoreMember = 12,
    Push = 13,
    PushConst = 14,
    Negate = 15,
    Not = 16,
    AddAcc = 17,
    AddLast = 18,
    Mul = 19,
    DivGuard = 20,
    Div = 21,
    HostMath = 22,
    Cmp = 23,
    CmpConst = 24,
    Eq = 25,
    EqConst = 26,
    EqHash = 27,
    AndStep = 28,
    OrStep = 29,
    AndLast = 30,
    OrLast = 31,
    Jump = 32,
    JumpIfFalsy = 33,
    Post = 34,
    HandlerPush = 35,
    HandlerPop = 36,
    PointerEnter = 37,
    PointerLeave = 38,
    Call = 39,
    LoopBegin = 40,
    LoopCheck = 41,
    LoopEnd = 42,
    EachBegin = 43,
    EachNextVar = 44,
    EachNextTemp = 45,
    Return = 46,
    Halt = 47,
    End = 48,
}

// The first byte of an instruction. A variant's number is had by `as` alone.
impl From<Opcode> for u8 {
    ghost from_gives = { λ op number. number ≡ number_of op };

    fn from(op: Opcode) -> u8 {
        op as u8
    }
}

// A number that is no opcode's. A type of its own: one for all three would let a byte of one stand for another's.
#[derive(Clone, Copy, Debug, PartialEq, Eq)]
pub struct UnknownOpcode(pub u8);

impl TryFrom<u8> for Opcode {
    type Error = UnknownOpcode;

    ghost try_from_gives = { λ number r. MatchResult r (λ op. number_of op ≡ number) (λ e. (e.0 ≡ number) × NoOpcode number) };

    fn try_from(number: u8) -> Result<Self, UnknownOpcode> {
        match number {
            1 => Ok(Opcode::Const),
            2 => Ok(Opcode::Hash),
            3 => Ok(Opcode::Resource),
            4 => Ok(Opcode::This),
            5 => Ok(Opcode::LoadVar),
            6 => Ok(Opcode::LoadTemp),
            7 => Ok(Opcode::LoadCtx),
            8 => Ok(Opcode::ArrayElement),
            9 => Ok(Opcode::Member),
            10 => Ok(Opcode::StoreVar),
            11 => Ok(Opcode::StoreTemp),
            12 => Ok(Opcode::StoreMember),
            13 => Ok(Opcode::Push),
            14 => Ok(Opcode::PushConst),
            15 => Ok(Opcode::Negate),
            16 => Ok(Opcode::Not),
            17 => Ok(Opcode::AddAcc),
            18 => Ok(Opcode::AddLast),
            19 => Ok(Opcode::Mul),
            20 => Ok(Opcode::DivGuard),
            21 => Ok(Opcode::Div),
            22 => Ok(Opcode::HostMath),
            23 => Ok(Opcode::Cmp),
            24 => Ok(Opcode::CmpConst),
            25 => Ok(Opcode::Eq),
            26 => Ok(Opcode::EqConst),
            27 => Ok(Opcode::EqHash),
            28 => Ok(Opcode::AndStep),
            29 => Ok(Opcode::OrStep),
            30 => Ok(Opcode::AndLast),
            31 => Ok(Opcode::OrLast),
            32 => Ok(Opcode::Jump),
            33 => Ok(Opcode::JumpIfFalsy),
            34 => Ok(Opcode::Post),
            35 => Ok(Opcode::HandlerPush),
            36 => Ok(Opcode::HandlerPop),
            37 => Ok(Opcode::PointerEnter),
            38 => Ok(Opcode::PointerLeave),
            39 => Ok(Opcode::Call),
            40 => Ok(Opcode::LoopBegin),
            41 => Ok(Opcode::LoopCheck),
            42 => Ok(Opcode::LoopEnd),
            43 => Ok(Opcode::EachBegin),
            44 => Ok(Opcode::EachNextVar),
            45 => Ok(Opcode::EachNextTemp),
            46 => Ok(Opcode::Return),
            47 => Ok(Opcode::Halt),
            48 => Ok(Opcode::End),
            _ => Err(UnknownOpcode(number)),
        }
    }
}
