// A refusal in the state: lowering goes on, and the first one stays.
ghost use Rattle.builder.specs.Done.{Did};
ghost use Rattle.builder.specs.Steps.{still, refused, failed};

use crate::Builder;

impl<'a, R: Copy + Drop> Builder<'a, R> {
    #[tactic(auto, unfolding(crate::specs::Steps::refused))]
    fn refuse(&mut self, why: R)
        ensures { Did self.old self.new (still (refused why)) }
    {
        self.state.refusal = self.state.refusal.or(Some(why));
    }

    // The first refusal stays.
    #[tactic(auto, unfolding(crate::specs::Steps::failed))]
    pub fn failed(&mut self, why: R)
        ensures { Did self.old self.new (failed why) }
    {
        self.flush();
        self.refuse(why);
    }
}
