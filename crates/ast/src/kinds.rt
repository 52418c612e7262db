// The payload kinds, each with its number in the tree image.
ghost use Rattle.ast.specs.Kinds.{KindOf};

#[derive(Clone, Copy, Debug, PartialEq, Eq)]
pub enum Kind {
    None = 0,
    Float = 1,
    Hash = 2,
    Context = 3,
    Entity = 4,
    Temp = 5,
    Member = 6,
    ArrayVariable = 7,
    Geometry = 8,
    Material = 9,
    Texture = 10,
    Query = 11,
    HostMath = 12,
}

// A number that is no kind's. A type of its own: one for all three would let a byte of one stand for another's.
#[derive(Clone, Copy, Debug, PartialEq, Eq)]
pub struct UnknownKind(pub u8);

impl TryFrom<u8> for Kind {
    type Error = UnknownKind;

    ghost try_from_gives = { KindOf };

    fn try_from(number: u8) -> Result<Self, UnknownKind> {
        match number {
            0 => Ok(Kind::None),
            1 => Ok(Kind::Float),
            2 => Ok(Kind::Hash),
            3 => Ok(Kind::Context),
            4 => Ok(Kind::Entity),
            5 => Ok(Kind::Temp),
            6 => Ok(Kind::Member),
            7 => Ok(Kind::ArrayVariable),
            8 => Ok(Kind::Geometry),
            9 => Ok(Kind::Material),
            10 => Ok(Kind::Texture),
            11 => Ok(Kind::Query),
            12 => Ok(Kind::HostMath),
            _ => Err(UnknownKind(number)),
        }
    }
}
