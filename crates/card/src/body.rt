// The nine sections, each a count and its entries, and the closing fields.
#![tactic(auto, using(crate::proofs::Join::writing))]

ghost use Rattle.std.specs.Prelude.{◌≡◌, [], ◌++◌, ◌+◌, ◌*◌, ◌^◌, ◌≤◌, ◌<◌, length};
ghost use Rattle.wire.specs.Bytes.{be};
ghost use Rattle.program.specs.Image.{bit};
ghost use Rattle.card.specs.declared.TheConstants.{CLOSING};
ghost use Rattle.card.specs.Written.{Wrote, cat};
ghost use Rattle.card.specs.Puts.{Room, Puts};
ghost use Rattle.card.specs.Image.{code_section, posts_section, hashes_section, closing_bytes, body_of, image_of};
ghost use Rattle.card.specs.Starts.{sums_of, closing_start, start_from_back};
ghost use Rattle.card.specs.Lowered.{of_parts};

use crate::entries::{Calls, Consts, Instructions, Members, Names, Stores, Temps};
use crate::fields::{Entries, Words, Writer};
use crate::measure::Sums;
use crate::{Lowered, Sections};
use numeric::{PostBits, PostOp};
use program::Flags;
use workspace::layout;

impl Writer<'_> {
    // A section: the count of its entries, and the entries.
    fn section<E: Entries>(&mut self, entries: &E, n: u16)
        requires { Room self.old (4 + E.most * n) }
        ensures { Puts self.old self.new (be 4 n [] ++ cat (E.bytes_of entries.now) n) (4 + E.most * n) }
    {
        self.put(u32::from(n));
        self.all(entries, usize::from(n));
    }

    // The main code, then the argument code with the main code's length added to its targets.
    #[tactic(auto, using(crate::proofs::Join::writing), unfolding(crate::specs::Image::code_section))]
    fn code(&mut self, ws: &[u32], n: u16, m: u16)
        requires { Room self.old (4 + 8 * n + 8 * m) }
        ensures { Puts self.old self.new (code_section ws.now n m) (4 + 8 * n + 8 * m) }
    {
        let main = Instructions {
            ws,
            from: layout::OPEN,
            base: 0,
        };
        let finished = Instructions {
            ws,
            from: layout::FINISHED,
            base: u32::from(n),
        };
        self.put(u32::from(n) + u32::from(m));
        self.all(&main, usize::from(n));
        self.all(&finished, usize::from(m));
    }

    // Slot 0, the identity, by its bit patterns, and the further posts.
    #[tactic(auto, using(crate::proofs::Join::writing, numeric::proofs::Identity::identity_patterns), unfolding(crate::specs::Image::posts_section))]
    fn posts(&mut self, ws: &[u32], n: u16)
        requires { Room self.old (12 + 8 * n) }
        ensures { Puts self.old self.new (posts_section ws.now n) (12 + 8 * n) }
    {
        let plain = PostBits::from(PostOp::IDENTITY);
        let further = Words {
            ws,
            from: layout::POSTS,
            base: 0,
        };
        self.put(u32::from(n) + 1);
        self.put(plain.scale);
        self.put(plain.offset);
        self.all(&further, 2 * usize::from(n));
    }

    // A count of pairs, and twice as many words.
    #[tactic(auto, using(crate::proofs::Join::writing), unfolding(crate::specs::Image::hashes_section))]
    fn hashes(&mut self, ws: &[u32], n: u16)
        requires { Room self.old (4 + 8 * n) }
        ensures { Puts self.old self.new (hashes_section ws.now n) (4 + 8 * n) }
    {
        let hashes = Words {
            ws,
            from: layout::HASHES,
            base: 0,
        };
        self.put(u32::from(n));
        self.all(&hashes, 2 * usize::from(n));
    }

    // The flags, and whether the program starts on the float loop.
    #[tactic(auto, using(crate::proofs::Join::writing), unfolding(program::specs::Image::bit))]
    fn flags(&mut self, f: Flags)
        requires { Room self.old 3 }
        ensures { Puts self.old self.new (be 2 f.bits [] ++ be 1 (bit f.float_loop) []) 3 }
    {
        self.put(f.bits);
        self.put(u8::from(f.float_loop));
    }

    #[tactic(auto, using(crate::proofs::Join::writing), unfolding(crate::specs::Image::closing_bytes, crate::specs::Written::joined))]
    fn closing(&mut self, c: Sections)
        requires { Room self.old CLOSING }
        ensures { Puts self.old self.new (closing_bytes c) CLOSING }
    {
        self.put(c.depths.stack);
        self.put(c.depths.loops);
        self.put(c.depths.handlers);
        self.flags(c.flags);
    }
}

impl Lowered<'_> {
    // All that stands behind the length, from the back: each section begins at the closing fields' place less the running sum that ends with it.
    #[tactic(auto, using(crate::proofs::Starts::all_within))]
    pub(crate) fn body(self, s: Sums, closing: usize, w: &mut Writer<'_>)
        requires { (s ≡ of_parts sums_of self) × (closing ≡ of_parts closing_start self) × (closing < 2 ^ 54) }
        ensures same { w.new.out.ghost_name ≡ w.old.out.ghost_name }
        ensures wrote { Wrote w.old.out.now (start_from_back self.entry.tree.now self.entry.ws.now self.entry.sections 0)
            (of_parts body_of self.entry) w.new.out.now (length (of_parts image_of self.entry)) }
    {
        let (ws, c) = (self.ws, self.sections);
        w.at = closing;
        w.closing(c);
        w.at = closing - s.calls;
        w.section(&Calls(self), c.listed.calls);
        w.at = closing - s.stores;
        w.section(&Stores(self), c.listed.stores);
        w.at = closing - s.members;
        w.section(&Members(self), c.pools.members);
        w.at = closing - s.temps;
        w.section(&Temps(self), c.pools.temps);
        w.at = closing - s.names;
        w.section(&Names(self), c.pools.names);
        w.at = closing - s.hashes;
        w.hashes(ws, c.pools.hashes);
        w.at = closing - s.posts;
        w.posts(ws, c.pools.posts);
        w.at = closing - s.consts;
        w.section(&Consts(self), c.pools.consts);
        w.at = closing - s.code;
        w.code(ws, c.code, c.finished);
    }
}
