// The sections' entries: what each kind writes for one index. `as` takes a word to a usize, for which there is no `From`.
// The places of entries are words at the layout's places, as the definitions have them; the lowering's `Region` finds and appends.
#![tactic(auto, using(crate::proofs::Join::writing))]

ghost use Rattle.std.specs.Prelude.{◌≡◌, ◌+◌, ◌*◌, ◌%◌, ◌^◌, ◌≤◌, ◌<◌, get_or};
ghost use Rattle.workspace.specs.Layout.{TEMPS};
ghost use Rattle.wire.specs.Bytes.{be8};
ghost use Rattle.card.specs.Puts.{Room, Puts};
ghost use Rattle.card.specs.Image.{
  instruction_bytes,
  instruction_entry,
  const_entry,
  text_bytes,
  dotted_bytes,
  hash_bytes,
  name_entry,
  half_entry,
  member_entry,
  store_entry,
  call_entry,
};

use crate::Lowered;
use crate::fields::{Entries, Run, Words, Writer};
use program::targets;
use workspace::layout;
use workspace::words::{plus, word};

// A word's low half, and its low byte.
pub(crate) fn low_half(w: u32) -> u16
    ensures { result ≡ w % 65536 }
{
    let [_, _, high, low] = w.to_be_bytes();
    u16::from_be_bytes([high, low])
}

fn low_byte(w: u32) -> u8
    ensures { result ≡ w % 256 }
{
    let [_, _, _, low] = w.to_be_bytes();
    low
}

// Opcode, sub, A and B.
#[tactic(auto, using(crate::proofs::Join::writing), unfolding(crate::specs::Image::instruction_bytes))]
fn put_instruction(w: u32, a: u32, base: u32, out: &mut Writer<'_>)
    requires { Room out.old 8 }
    ensures { Puts out.old out.new (instruction_bytes base w a) 8 }
{
    let [opcode, sub, _, _] = w.to_be_bytes();
    let s = targets::shift(opcode, base);
    let v = plus(a, s);
    out.put(opcode);
    out.put(sub);
    out.put(v);
    out.put(low_half(w));
}

// The instructions from `from` on, their targets counted from `base`.
pub(crate) type Instructions<'a> = Run<'a, 2>;

impl Entries for Run<'_, 2> {
    ghost bytes_of = { λ s. instruction_entry s.ws.now s.from s.base };

    ghost most = { 8 };

    fn put(&self, i: usize, out: &mut Writer<'_>) {
        let w = word(self.ws, self.from + 2 * i);
        let a = word(self.ws, self.from + 2 * i + 1);
        put_instruction(w, a, self.base, out);
    }
}

// A constant: the first of its two words.
#[derive(Drop)]
pub(crate) struct Consts<'a>(pub(crate) Lowered<'a>);

impl Entries for Consts<'_> {
    ghost bytes_of = { λ s. const_entry s.0.ws.now };

    ghost most = { 4 };

    fn put(&self, i: usize, out: &mut Writer<'_>) {
        let w = word(self.0.ws, layout::CONSTS + 2 * i);
        out.put(w);
    }
}

// A text of the tree image: its length byte stands at `at`, its letters behind that.
#[derive(Clone, Copy, Drop)]
pub(crate) struct Text<'a> {
    tree: &'a [u8],
    at: usize,
    ghost near: { at < 2 ^ 32 },
}

impl<'a> Lowered<'a> {
    // The text that the word at `k` names.
    pub(crate) fn text(self, k: usize) -> Text<'a>
        ensures { (result.tree.now ≡ self.entry.tree.now) × (result.at ≡ get_or self.entry.ws.now k 0) }
    {
        Text {
            tree: self.tree,
            at: word(self.ws, k) as usize,
        }
    }
}

impl Text<'_> {
    pub(crate) fn size(self) -> u8
        ensures { result ≡ be8 self.entry.tree.now self.entry.at 0 }
    {
        wire::get_u8(self.tree, self.at, 0)
    }

    #[tactic(auto, using(crate::proofs::Join::writing), unfolding(crate::specs::Image::text_bytes))]
    fn put(self, out: &mut Writer<'_>)
        requires { Room out.old 257 }
        ensures { Puts out.old out.new (text_bytes self.entry.tree.now self.entry.at) 257 }
    {
        let n = self.size();
        out.put(u16::from(n));
        out.bytes(self.tree, self.at + 1, n);
    }

    // The same with a dot in front. The ends are alike and stay: one function for them would read the length again.
    #[tactic(auto, using(crate::proofs::Join::writing), unfolding(crate::specs::Image::dotted_bytes))]
    fn put_dotted(self, out: &mut Writer<'_>)
        requires { Room out.old 258 }
        ensures { Puts out.old out.new (dotted_bytes self.entry.tree.now self.entry.at) 258 }
    {
        let n = self.size();
        out.put(u16::from(n) + 1);
        out.put(b'.');
        out.bytes(self.tree, self.at + 1, n);
    }
}

// A hash: the high word and the low one.
fn put_hash(ws: &[u32], k: usize, out: &mut Writer<'_>)
    requires { (k < 2 ^ 40) × Room out.old 8 }
    ensures { Puts out.old out.new (hash_bytes ws.now k) 8 }
{
    let a = word(ws, k);
    let b = word(ws, k + 1);
    out.put(a);
    out.put(b);
}

#[derive(Drop)]
pub(crate) struct Names<'a>(pub(crate) Lowered<'a>);

impl Entries for Names<'_> {
    ghost bytes_of = { λ s. name_entry s.0.tree.now s.0.ws.now };

    ghost most = { 265 };

    #[tactic(auto, using(crate::proofs::Join::writing), unfolding(crate::specs::Image::name_bytes))]
    fn put(&self, i: usize, out: &mut Writer<'_>) {
        let k = layout::NAMES + 3 * i;
        put_hash(self.0.ws, k, out);
        self.0.text(k + 2).put(out);
    }
}

// A temp: the low half of its word.
#[derive(Drop)]
pub(crate) struct Temps<'a>(pub(crate) Lowered<'a>);

impl Entries for Temps<'_> {
    ghost bytes_of = { λ s. half_entry s.0.ws.now TEMPS };

    ghost most = { 2 };

    fn put(&self, i: usize, out: &mut Writer<'_>) {
        let w = word(self.0.ws, layout::TEMPS + i);
        out.put(low_half(w));
    }
}

#[derive(Drop)]
pub(crate) struct Members<'a>(pub(crate) Lowered<'a>);

impl Entries for Members<'_> {
    ghost bytes_of = { λ s. member_entry s.0.tree.now s.0.ws.now };

    ghost most = { 524 };

    #[tactic(auto, using(crate::proofs::Join::writing), unfolding(crate::specs::Image::member_bytes))]
    fn put(&self, i: usize, out: &mut Writer<'_>) {
        let k = layout::MEMBERS + 6 * i;
        put_hash(self.0.ws, k, out);
        self.0.text(k + 4).put_dotted(out);
        self.0.text(k + 5).put_dotted(out);
    }
}

// A store's root, and the hashes of its path.
#[derive(Drop)]
pub(crate) struct Stores<'a>(pub(crate) Lowered<'a>);

impl Entries for Stores<'_> {
    ghost bytes_of = { λ s. store_entry s.0.ws.now };

    ghost most = { 524285 };

    #[tactic(auto, using(crate::proofs::Join::writing), unfolding(crate::specs::Image::store_bytes))]
    fn put(&self, i: usize, out: &mut Writer<'_>) {
        let ws = self.0.ws;
        let k = layout::STORES + 4 * i;
        let root = word(ws, k);
        let index = word(ws, k + 1);
        let first = word(ws, k + 2);
        let count = low_half(word(ws, k + 3));
        out.put(low_byte(root));
        out.put(low_half(index));
        out.put(count);
        let path = Words {
            ws,
            from: layout::PATHS + 2 * (first as usize),
            base: 0,
        };
        out.all(&path, 2 * usize::from(count));
    }
}

// A call's query, and the starts of its arguments, which stand behind the main code.
#[derive(Drop)]
pub(crate) struct Calls<'a>(pub(crate) Lowered<'a>);

impl Entries for Calls<'_> {
    ghost bytes_of = { λ s. call_entry s.0.ws.now s.0.sections.code };

    ghost most = { 262145 };

    #[tactic(auto, using(crate::proofs::Join::writing), unfolding(crate::specs::Image::call_bytes))]
    fn put(&self, i: usize, out: &mut Writer<'_>) {
        let ws = self.0.ws;
        let k = layout::CALLS + 4 * i;
        let index = word(ws, k);
        let impl_idx = word(ws, k + 1);
        let count = low_half(word(ws, k + 2));
        let first = word(ws, k + 3);
        out.put(low_half(index));
        out.put(low_byte(impl_idx));
        out.put(count);
        let starts = Words {
            ws,
            from: layout::ARGUMENTS + first as usize,
            base: u32::from(self.0.sections.code),
        };
        out.all(&starts, usize::from(count));
    }
}
