// Big-endian numbers read in bytes. Past the end a byte reads 0. Bytes and place come from the caller, who has them as one value (tree's `Node`).
#![tactic(auto)]

ghost use Rattle.std.specs.Prelude.{◌≡◌, ℕ, ◌+◌, get_or, IfSome};
ghost use Rattle.wire.specs.Bytes.{be8, be16, be32, be64};
ghost use Rattle.wire.specs.Reads.{AreAt};

// The byte at `p + k`.
pub fn get_u8(s: &[u8], p: usize, k: usize) -> u8
    ensures { result ≡ be8 s.now p k }
{
    s.get(p..)
        .and_then(|rest| rest.get(k))
        .copied()
        .unwrap_or(0)
}

// The N bytes from `p + k` on, if all are there.
fn chunk_at<const N: usize>(s: &[u8], p: usize, k: u16) -> Option<&[u8; N]>
    ensures { IfSome result (λ bytes. AreAt s.now p k N bytes.now) }
{
    s.get(p..)?.get(usize::from(k)..)?.first_chunk()
}

// The bytes from `p + k` on.
fn rest_at(s: &[u8], p: usize, k: u16) -> &[u8]
    ensures { (i : ℕ) → get_or result.now i 0 ≡ be8 s.now p (k + i) }
{
    let from = s.len().min(p.saturating_add(usize::from(k)));
    &s[from..]
}

// The N bytes from `p + k` on, each by itself. A loop: `array::from_fn` ensures a step of its closure after another, which would take an induction.
fn padded_at<const N: usize>(s: &[u8], p: usize, k: u16) -> [u8; N]
    ensures { AreAt s.now p k N result }
{
    let rest = rest_at(s, p, k);
    let mut bytes = [0; N];
    for i in 0..N {
        bytes[i] = rest.get(i).copied().unwrap_or(0);
    }
    bytes
}

// The same. The compiler makes one load of a whole chunk; padded in here, and not in a function of its own, the bytes would go through memory.
fn bytes_at<const N: usize>(s: &[u8], p: usize, k: u16) -> [u8; N]
    ensures { AreAt s.now p k N result }
{
    match chunk_at(s, p, k) {
        Some(bytes) => *bytes,
        None => padded_at(s, p, k),
    }
}

// The number of two bytes from `p + k` on.
#[tactic(auto, unfolding(crate::specs::Bytes::be16))]
pub fn get_u16(s: &[u8], p: usize, k: u16) -> u16
    ensures { result ≡ be16 s.now p k }
{
    u16::from_be_bytes(bytes_at(s, p, k))
}

// The number of four bytes from `p + k` on.
#[tactic(auto, unfolding(crate::specs::Bytes::be32))]
pub fn get_u32(s: &[u8], p: usize, k: u16) -> u32
    ensures { result ≡ be32 s.now p k }
{
    u32::from_be_bytes(bytes_at(s, p, k))
}

// The number of eight bytes from `p + k` on.
#[tactic(auto, unfolding(crate::specs::Bytes::be64, crate::specs::Bytes::be32))]
pub fn get_u64(s: &[u8], p: usize, k: u16) -> u64
    ensures { result ≡ be64 s.now p k }
{
    u64::from_be_bytes(bytes_at(s, p, k))
}
