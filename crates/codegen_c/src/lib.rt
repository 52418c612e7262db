// The functions for C, in one static library: include/molang.h says the same to C. No other crate can use a static library.
#![tactic(auto)]

ghost use Rattle.std.specs.Prelude.{◌≡◌, ◌-◌, drop, replicate};
ghost use Rattle.codegen.specs.Build.{Packed};
ghost use Rattle.pages.specs.Answer.{answer};
ghost use Rattle.pages.specs.ForC.{listed, told};

use pages::c::PackingForC;

// The tree image's program image in `out`; the answer is the refusal's number * 2^32 + the image's length.
#[unsafe(no_mangle)]
pub extern "C" fn molang_build(tree: &[u8], workspace: &mut [u32], out: &mut [u8]) -> u64
    ensures { Packed tree.now workspace.old out.old workspace.new out.new result }
{
    codegen::molang_build(tree, workspace, out)
}

// The packing of program images on card pages.
#[unsafe(no_mangle)]
pub extern "C" fn molang_pack(sizes: &[u16], budget: u64) -> PackingForC
    ensures answer { told sizes.now result ≡ answer sizes.now budget }
    ensures behind { drop (listed sizes.now result) result.pages ≡ replicate (32 - listed sizes.now result) 0 }
{
    pages::c::molang_pack(sizes, budget)
}
