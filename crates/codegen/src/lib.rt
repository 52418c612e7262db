// The generator: a tree image to its program image, over a lent workspace.
#![tactic(auto)]

ghost use Rattle.std.specs.Prelude.{◌≡◌};
ghost use Rattle.ast.specs.Questions.{questions};
ghost use Rattle.representation.specs.Sections.{closing_flags, sections_of};
ghost use Rattle.codegen.specs.Build.{shown, packed, zeros, Built, Packed, Asked};

use answers::refusals::Refusal;
use builder::State;
use card::Sections;
use program::Flags;
use workspace::layout;

// The nine questions in order; the program image in `out` where all are answered by yes. The image's length, or the first question that is answered by no.
pub fn build(tree: &[u8], workspace: &mut [u32], out: &mut [u8]) -> Result<usize, Refusal>
    ensures { Built tree.now workspace.old out.old workspace.new out.new (shown result) }
{
    let Some(ws) = workspace.first_chunk_mut() else {
        return Err(Refusal::SmallWorkspace);
    };
    inside(tree, ws, out)
}

// The same as one number: the refusal's number * 2^32 + the length. Crate codegen_c exports it to C.
pub fn molang_build(tree: &[u8], workspace: &mut [u32], out: &mut [u8]) -> u64
    ensures { Packed tree.now workspace.old out.old workspace.new out.new result }
{
    let a = build(tree, workspace, out);
    pack(a)
}

// No `From`: neither `Result` nor `u64` is of this crate. A `usize` has 64 bits, so `as` widens it.
fn pack(a: Result<usize, Refusal>) -> u64
    ensures { result ≡ packed (shown a) }
{
    match a {
        Ok(n) => n as u64,
        Err(why) => u64::from(u8::from(why)) * 4294967296,
    }
}

// Questions 2 to 9 in a workspace of 16,384 words, which is cleared afterwards.
#[tactic(auto, using(crate::proofs::Outcome::all_zero))]
fn inside(tree: &[u8], ws: &mut [u32; layout::WORDS], out: &mut [u8]) -> Result<usize, Refusal>
    ensures { Asked tree.now out.old out.new (shown result) × (ws.new ≡ zeros) }
{
    let a = asked(tree, ws, out);
    ws.fill(0);
    a
}

// Questions 2 to 9.
fn asked(tree: &[u8], ws: &mut [u32; layout::WORDS], out: &mut [u8]) -> Result<usize, Refusal>
    ensures { Asked tree.now out.old out.new (shown result) }
{
    questions::check_image(tree)?;
    generate(tree, ws, out)
}

// Questions 5 to 9, of an image that questions 2 to 4 let pass.
fn generate(tree: &[u8], ws: &mut [u32; layout::WORDS], out: &mut [u8]) -> Result<usize, Refusal>
    requires { questions tree.now ≡ 0 }
    ensures { Asked tree.now out.old out.new (shown result) }
{
    let s = lowering::lower(tree, ws);
    let refused = s.refusal;
    if let Some(why) = refused {
        return Err(why);
    }
    let c = sections(s);
    card::finish(tree, ws, c, out)
}

// What is to be written of a lowered tree: how much of each region, and the closing fields. No `From`: both types are of other crates.
#[tactic(auto, unfolding(representation::specs::Sections::sections_of, representation::specs::Sections::in_loop))]
fn sections(s: State<Refusal>) -> Sections
    ensures { result ≡ sections_of s }
{
    let d = s.depth;
    let most = d.max;
    let fits = most.in_float_loop(s.pools.temps);
    Sections {
        code: s.code.top,
        finished: s.code.finished,
        pools: s.pools,
        listed: s.listed,
        depths: most,
        flags: closing_flags(s.flags, fits),
    }
}

// A program that is too deep for the float loop is not FLOAT_ONLY, and does not start on it.
#[tactic(auto, unfolding(representation::specs::Sections::closing_flags))]
fn closing_flags(f: Flags, fits: bool) -> Flags
    ensures { result ≡ closing_flags fits f }
{
    if fits {
        return f;
    }
    Flags {
        bits: f.bits & Flags::NOT_FLOAT,
        float_loop: false,
    }
}
