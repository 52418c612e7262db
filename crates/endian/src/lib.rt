// Big-endian numbers written into bytes. Past the end nothing is written. Output and place come from the caller, who has them as one value (card's `Writer`).
#![tactic(auto)]

ghost use Rattle.std.specs.Prelude.{◌≡◌, ℕ, [], ◌/◌, ◌%◌, ◌^◌, ◌<◌, ◌≤◌, length};
ghost use Rattle.std.proofs.lemmas.List.Edits.{sets};
ghost use Rattle.wire.specs.Bytes.{be};

// A number of N bytes.
pub trait Field<const N: usize>: Drop {
    ghost number: { Self → ℕ };

    // Its bytes from `at` on, the highest first, each if it has a place.
    fn put(self, out: &mut [u8], at: usize)
        ensures { out.new ≡ sets out.old at (be N (number self) []) };
}

impl Field<1> for u8 {
    ghost number = { λ n. n };

    // A test and a store: of a slice's `get_mut` the library says how long the slice stays, and no element.
    // The workspace's `put_word` is the same of a word: neither crate knows the other, so they are two.
    #[tactic(auto, using(wire::proofs::Numbers::be_one, wire::proofs::Stores::sets_out))]
    fn put(self, out: &mut [u8], at: usize) {
        if at < out.len() {
            out[at] = self;
        }
    }
}

impl Field<2> for u16 {
    ghost number = { λ n. n };

    #[tactic(auto, using(wire::proofs::Shifts::be_shifts))]
    fn put(self, out: &mut [u8], at: usize) {
        let w = u32::from(self);
        put_bytes(out, at, [byte(w, 8), byte(w, 0)]);
    }
}

impl Field<4> for u32 {
    ghost number = { λ n. n };

    #[tactic(auto, using(wire::proofs::Shifts::be_shifts))]
    fn put(self, out: &mut [u8], at: usize) {
        put_bytes(
            out,
            at,
            [byte(self, 24), byte(self, 16), byte(self, 8), byte(self, 0)],
        );
    }
}

// The bytes from `at` on, each if it has a place. An index: what `iter_mut` leaves in a slice the library does not say.
#[tactic(auto, using(crate::proofs::Runs::sets_more))]
fn put_each<const N: usize>(out: &mut [u8], at: usize, bytes: [u8; N])
    requires { at < length out.old }
    ensures { out.new ≡ sets out.old at bytes.entry }
{
    for i in 0..N {
        bytes[i].put(out, at + i);
    }
}

// The same. The compiler makes one store of bytes that all have a place.
#[tactic(auto, using(crate::proofs::Runs::sets_whole, wire::proofs::Stores::sets_out))]
fn put_bytes<const N: usize>(out: &mut [u8], at: usize, bytes: [u8; N])
    ensures { out.new ≡ sets out.old at bytes.entry }
{
    if at < out.len() {
        if N <= out.len() - at {
            out[at..at + N].copy_from_slice(&bytes);
        } else {
            put_each(out, at, bytes);
        }
    }
}

// The byte of `n` at a shift. Nothing is divided, which is a rule of the project: `to_be_bytes` is written as quotients. `as` cuts what fits.
fn byte(n: u32, shift: u32) -> u8
    requires { shift < 32 }
    ensures { result ≡ n / 2 ^ shift % 256 }
{
    ((n >> shift) & 255) as u8
}
