// What stands between the gate of an area and its base.
ghost use Rattle.std.specs.Prelude.{◌≡◌, ◌≤◌, ◌+◌, ◌++◌, List, ℕ, drop, length, take};
ghost use Rattle.std.specs.Int.{from_be_bytes, w64};
ghost use Rattle.arrayvec.specs.ArrayVec.{array_vec_len};
ghost use Rattle.recovery.specs.Areas.{IsHeadOf, IsOpen, head_bytes, sized_bytes};
ghost use Rattle.recovery.specs.Reopening.{IsHeadIn};
ghost use Rattle.sha2.specs.Sha256.{sha256};

use arrayvec::ArrayVec;
use sha2::{Digest, Sha256};

/// The bytes by which an area is known. They stand behind its gate.
pub const MARK: [u8; 8] = *b"OGAREA01";

/// How many bytes stand between the gate and the base.
pub const HEAD_SIZE: usize = 56;

/// The fewest bytes of an open area: its gate, its head, and the gate of its first batch.
pub const LEAST: usize = 58;

/// The place of the base.
pub const BASE: u64 = 57;

/// The generation of an area, how many bytes its base has, and the SHA-256 of the mark, of these two numbers and of the base.
#[derive(Clone, Copy, Debug, PartialEq, Eq)]
pub struct Head {
    pub generation: u64,
    pub size: u64,
    pub digest: [u8; 32],
}

impl Head {
    /// The head of an area with this base.
    #[tactic(auto, unfolding(crate::specs::Areas::digest_of))]
    pub fn of(generation: u64, base: &[u8]) -> Head
        ensures { IsHeadOf generation base.now result }
    {
        let size = base.len() as u64;
        let digest = digest(generation, size, base);
        Head {
            generation,
            size,
            digest,
        }
    }

    /// The head of an open area that begins with these bytes.
    pub fn read(front: &[u8; LEAST]) -> Head
        ensures { (content : List ℕ) → IsOpen content → front.now ≡ take 58 content → IsHeadIn content result }
    {
        let mut digest = [0; 32];
        digest.copy_from_slice(&front[25..57]);
        Head {
            generation: number_at(front, 9),
            size: number_at(front, 17),
            digest,
        }
    }

    /// Its bytes.
    #[tactic(auto, unfolding(crate::specs::Areas::head_bytes, records::specs::Entries::u64))]
    pub fn bytes(&self) -> ArrayVec<u8, HEAD_SIZE>
        ensures { result.items ≡ head_bytes self.now }
    {
        let mut bytes = ArrayVec::new();
        put(&mut bytes, &MARK);
        put(&mut bytes, &self.generation.to_be_bytes());
        put(&mut bytes, &self.size.to_be_bytes());
        put(&mut bytes, &self.digest);
        bytes
    }
}

/// The SHA-256 of the mark, of a generation and a size, and of the bytes of a base.
pub fn digest(generation: u64, size: u64, base: &[u8]) -> [u8; 32]
    ensures { result ≡ sha256 (sized_bytes generation size ++ base.now) }
{
    let mut hasher = Sha256::new();
    hasher.update(MARK);
    hasher.update(generation.to_be_bytes());
    hasher.update(size.to_be_bytes());
    hasher.update(base);
    hasher.finalize()
}

// The number of 8 bytes at a place.
fn number_at(front: &[u8; LEAST], at: usize) -> u64
    requires { at ≤ 50 }
    ensures { result ≡ from_be_bytes w64 (take 8 (drop at front.now)) }
{
    let mut bytes = [0; 8];
    bytes.copy_from_slice(&front[at..at + 8]);
    u64::from_be_bytes(bytes)
}

// Appends bytes for which there is room.
fn put(out: &mut ArrayVec<u8, HEAD_SIZE>, bytes: &[u8])
    requires { length out.old.items + length bytes.now ≤ 56 }
    ensures text { out.new.items ≡ out.old.items ++ bytes.now }
    ensures size { length out.new.items ≡ length out.old.items + length bytes.now }
{
    let _ = out.try_extend_from_slice(bytes);
}
