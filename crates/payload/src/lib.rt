// The payload of a node of a tree image. Past the end every byte reads 0, and no place lies past the end.
#![tactic(auto)]

ghost use Rattle.std.specs.Prelude.{◌≡◌};
ghost use Rattle.payload.specs.Payloads.{name_ref_at, payload_ref_at};
ghost use Rattle.tree.specs.Nodes.{bytes};

use ast::kinds::Kind;
use tree::Node;

// A name: its hash, and where its text lies in the image. `len` is public; nothing here reads it.
#[derive(Clone, Copy, Drop)]
pub struct NameRef {
    pub hash: u64,
    pub at: usize,
    pub len: usize,
}

#[derive(Clone, Copy, Drop)]
pub struct QueryRef {
    pub index: u16,
    pub impl_idx: u8,
}

// The payload enum, a form that a rule of the project names: a case for each kind, and `None` for an unknown kind too.
#[derive(Clone, Copy, Drop)]
pub enum Payload {
    None,
    Float(u32),
    Hash(u64),
    Context(NameRef),
    Entity(NameRef),
    Temp(NameRef),
    Member(NameRef),
    ArrayVariable(NameRef),
    Geometry(NameRef),
    Material(NameRef),
    Texture(NameRef),
    Query(QueryRef),
    HostMath(u16),
}

#[tactic(auto, unfolding(crate::specs::Payloads::name_ref_at))]
fn name_of(node: Node<'_>) -> NameRef
    ensures { result ≡ name_ref_at (bytes node.entry) node.entry.at }
{
    let s = *node.image;
    let hash = wire::get_u64(s, node.at, 14);
    let at = tree::place(s, node.at, 23);
    let len = usize::from(wire::get_u8(s, node.at, 22)).min(s.len() - at);
    NameRef { hash, at, len }
}

// The payload; None where the kind is unknown.
#[tactic(auto, unfolding(crate::specs::Payloads::payload_ref_at))]
pub fn payload_of(node: Node<'_>) -> Payload
    ensures { result ≡ payload_ref_at (bytes node.entry) node.entry.at }
{
    match node.kind() {
        Ok(Kind::None) => Payload::None,
        Ok(Kind::Float) => Payload::Float(wire::get_u32(*node.image, node.at, 14)),
        Ok(Kind::Hash) => Payload::Hash(wire::get_u64(*node.image, node.at, 14)),
        Ok(Kind::Context) => Payload::Context(name_of(node)),
        Ok(Kind::Entity) => Payload::Entity(name_of(node)),
        Ok(Kind::Temp) => Payload::Temp(name_of(node)),
        Ok(Kind::Member) => Payload::Member(name_of(node)),
        Ok(Kind::ArrayVariable) => Payload::ArrayVariable(name_of(node)),
        Ok(Kind::Geometry) => Payload::Geometry(name_of(node)),
        Ok(Kind::Material) => Payload::Material(name_of(node)),
        Ok(Kind::Texture) => Payload::Texture(name_of(node)),
        Ok(Kind::Query) => Payload::Query(QueryRef {
            index: wire::get_u16(*node.image, node.at, 14),
            impl_idx: wire::get_u8(*node.image, node.at, 16),
        }),
        Ok(Kind::HostMath) => Payload::HostMath(wire::get_u16(*node.image, node.at, 14)),
        Err(_) => Payload::None,
    }
}
