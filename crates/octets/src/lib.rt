// Numbers and runs in lent bytes, the highest byte first. Each function answers for every slice and
// every place, and none asks anything of its caller.
#![tactic(auto)]

mod writers;

ghost use Rattle.std.specs.Prelude.{◌≡◌, ◌+◌, ◌<◌, ◌≤◌, length, take, drop, MatchOption};
ghost use Rattle.octets.specs.Bytes.{byte_of, there, be_of, le_of, filled, same_bytes};

pub use writers::{open_gap, put, put16, put32};

// The byte at `at`, or 0 past the end.
pub fn byte(s: &[u8], at: usize) -> u8
    ensures { result ≡ byte_of s.now at }
{
    if at < s.len() { s[at] } else { 0 }
}

// The N bytes at `at`, or none unless all are there.
fn array_at<const N: usize>(s: &[u8], at: usize) -> Option<[u8; N]>
    ensures { MatchOption result (length s.now < at + N) (λ a. (at + N ≤ length s.now) × (a ≡ take N (drop at s.now))) }
{
    s.get(at..)?.first_chunk().copied()
}

// The number of two bytes at `at`, or 0 unless both are there.
#[tactic(auto, using(crate::proofs::Readers::be_short, crate::proofs::Readers::be16_taken))]
pub fn be16(s: &[u8], at: usize) -> u16
    ensures { result ≡ be_of 2 s.now at }
{
    array_at(s, at).map_or(0, u16::from_be_bytes)
}

// The number of four bytes at `at`, or 0 unless all are there.
#[tactic(auto, using(crate::proofs::Readers::be_short, crate::proofs::Readers::be32_taken))]
pub fn be32(s: &[u8], at: usize) -> u32
    ensures { result ≡ be_of 4 s.now at }
{
    array_at(s, at).map_or(0, u32::from_be_bytes)
}

// The number of eight bytes at `at`, or 0 unless all are there.
#[tactic(auto, using(crate::proofs::Readers::be_short, crate::proofs::Readers::be64_taken))]
pub fn be64(s: &[u8], at: usize) -> u64
    ensures { result ≡ be_of 8 s.now at }
{
    array_at(s, at).map_or(0, u64::from_be_bytes)
}

// The number of eight bytes at `at`, the lowest byte first, or 0 unless all are there.
#[tactic(auto, using(crate::proofs::Readers::le_short, crate::proofs::Readers::le64_taken))]
pub fn le64(s: &[u8], at: usize) -> u64
    ensures { result ≡ le_of 8 s.now at }
{
    array_at(s, at).map_or(0, u64::from_le_bytes)
}

// Whether the n bytes at `at` are all there.
fn has(s: &[u8], at: usize, n: usize) -> bool
    ensures { result ≡ there n s.now at }
{
    n <= s.len() && at <= s.len() - n
}

// Whether the eight bytes at `at` are there and are 0.
#[tactic(auto, using(crate::proofs::Stored::filled_not, crate::proofs::Stored::filled_taken))]
pub fn blank8(s: &[u8], at: usize) -> bool
    ensures { result ≡ filled 0 8 s.now at }
{
    array_at(s, at) == Some([0; 8])
}

// Whether the eight bytes at `at` are there and are 255.
#[tactic(auto, using(crate::proofs::Stored::filled_not, crate::proofs::Stored::filled_taken))]
pub fn full8(s: &[u8], at: usize) -> bool
    ensures { result ≡ filled 255 8 s.now at }
{
    array_at(s, at) == Some([255; 8])
}

// Whether every byte of s is 0, eight bytes a step where so many are left.
pub fn blank(s: &[u8]) -> bool
    ensures { result ≡ filled 0 (length s.now) s.now 0 }
{
    let mut at = 0;
    while at < s.len() {
        if has(s, at, 8) {
            if le64(s, at) != 0 {
                return false;
            }
            at += 8;
        } else {
            if s[at] != 0 {
                return false;
            }
            at += 1;
        }
    }
    true
}

// Whether a and b hold the same bytes.
#[tactic(auto, using(crate::proofs::Runs::pairs_same, crate::proofs::Runs::parts_same))]
pub fn same(a: &[u8], b: &[u8]) -> bool
    ensures { result ≡ same_bytes a.now b.now }
{
    a == b
}
