// Numbers in bytes, the most significant byte first.
ghost use Rattle.std.specs.Prelude.{◌≡◌, ◌<◌, ◌^◌, ◌∷◌, ◌++◌, List, ℕ, length};
ghost use Rattle.std.specs.List.{flat_map};
ghost use Rattle.records.specs.Ranges.{CountsFit};
ghost use Rattle.records.specs.Entries.{u16, u32, u64};

/// A cursor over bytes, which takes the next number. If there are no bytes left for it, it takes none, and the number is 0.
#[derive(Drop)]
pub struct Numbers<'a> {
    pub rest: &'a [u8],
}

impl Numbers<'_> {
    pub fn next_u8(&mut self) -> u8
        ensures { (n : ℕ) (more : List ℕ) → self.old.rest.now ≡ n ∷ more → (result ≡ n) × (self.new.rest.now ≡ more) }
    {
        match self.rest {
            [first, rest @ ..] => {
                self.rest = rest;
                *first
            }
            [] => 0,
        }
    }

    #[tactic(auto, using(crate::proofs::Cursor::taken_16))]
    pub fn next_u16(&mut self) -> u16
        ensures { (n : ℕ) (more : List ℕ) → n < 2 ^ 16 → self.old.rest.now ≡ u16 n ++ more
            → (result ≡ n) × (self.new.rest.now ≡ more) }
    {
        match self.rest.split_first_chunk::<2>() {
            Some((bytes, rest)) => {
                self.rest = rest;
                u16::from_be_bytes(*bytes)
            }
            None => 0,
        }
    }

    // Fills `into` with counts.
    pub fn next_counts(&mut self, into: &mut [u32])
        ensures { (counts more : List ℕ) → CountsFit counts (length into.old) → self.old.rest.now ≡ flat_map u32 counts ++ more
            → (into.new ≡ counts) × (self.new.rest.now ≡ more) }
    {
        'counts: for count in into.iter_mut() {
            *count = self.next_u32();
        }
    }

    #[tactic(auto, using(crate::proofs::Cursor::taken_32))]
    pub fn next_u32(&mut self) -> u32
        ensures { (n : ℕ) (more : List ℕ) → n < 2 ^ 32 → self.old.rest.now ≡ u32 n ++ more
            → (result ≡ n) × (self.new.rest.now ≡ more) }
    {
        match self.rest.split_first_chunk::<4>() {
            Some((bytes, rest)) => {
                self.rest = rest;
                u32::from_be_bytes(*bytes)
            }
            None => 0,
        }
    }

    #[tactic(auto, using(crate::proofs::Cursor::taken_64))]
    pub fn next_u64(&mut self) -> u64
        ensures { (n : ℕ) (more : List ℕ) → n < 2 ^ 64 → self.old.rest.now ≡ u64 n ++ more
            → (result ≡ n) × (self.new.rest.now ≡ more) }
    {
        match self.rest.split_first_chunk::<8>() {
            Some((bytes, rest)) => {
                self.rest = rest;
                u64::from_be_bytes(*bytes)
            }
            None => 0,
        }
    }
}
