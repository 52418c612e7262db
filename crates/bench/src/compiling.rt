// A tree image's program image on standard output; of a refusal, one line on standard error.
ghost use Rattle.std.specs.Prelude.{◌≡◌};
ghost use Rattle.semantics.specs.Link.{refusal_of};
ghost use Rattle.codegen.specs.Build.{shown};

use crate::Done;
use answers::refusals::Refusal;

// The program image of the tree image `tree`, or why it is refused.
pub fn compile(rt: &(impl Print + Eprint), tree: &[u8]) -> Done
    ensures { (shown result.answer).number ≡ refusal_of tree.now }
{
    let mut out = crate::output();
    let answer = crate::answer(tree, &mut out);
    let written = match answer {
        Ok(n) => rt.write_all(&out[..n]),
        Err(why) => {
            refused(rt, why);
            Ok(())
        }
    };
    Done { answer, written }
}

// The refusal's number and its text. Standard output gets nothing, and all of that is written.
fn refused(rt: &impl Eprint, why: Refusal) {
    let _ = eprintln!(rt; "refused {}: {why}", u8::from(why));
}
