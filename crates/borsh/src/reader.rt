// A reader holds the bytes that are read and its place in them. What it finds there is what
// `specs/Taking.antt` says. Where something is not there, it answers `None` and stays at its place.
ghost use Rattle.std.specs.Prelude.{◌≡◌, IsNone, MatchOption};
ghost use Rattle.borsh.specs.Taking.{Took, took, take_number, take_array, take_vec};

#[derive(Clone, Copy, Debug)]
pub struct Reader<'a> {
    pub src: &'a [u8],
    // May lie behind the end: nothing is found there.
    pub at: usize,
}

impl<'a> Reader<'a> {
    pub fn new(src: &'a [u8], at: usize) -> Self
        ensures source { result.src ≡ src.entry }
        ensures place { result.at ≡ at }
    {
        Reader { src, at }
    }

    // A fixed array of n bytes. The sum of the place and n may not fit, so it is not formed.
    #[tactic(auto, unfolding(crate::specs::Taking::take_array))]
    fn array(&mut self, n: usize) -> Option<&'a [u8]>
        ensures source { self.new.src ≡ self.old.src }
        ensures taken { let found = take_array n self.old.src.now self.old.at in MatchOption result (found ≡ None) (λ b. Took self.old.src.now found b.now self.new.at) }
        ensures stays { IsNone result → self.new.at ≡ self.old.at }
    {
        if self.src.len() < self.at || self.src.len() - self.at < n {
            return None;
        }
        let start = self.at;
        self.at = start + n;
        Some(&self.src[start..start + n])
    }

    #[tactic(auto, using(crate::proofs::Spans::front), unfolding(crate::specs::Taking::take_array, crate::specs::Taking::take_number))]
    pub fn u32(&mut self) -> Option<u32>
        ensures source { self.new.src ≡ self.old.src }
        ensures taken { took result self.new.at ≡ take_number 4 self.old.src.now self.old.at }
        ensures stays { IsNone result → self.new.at ≡ self.old.at }
    {
        let bytes = self.array(4)?;
        Some(octets::u32_at(bytes, 0))
    }

    // Beside `u32` and not one generic with it: the body is one call of `array` and one of `octets`'s
    // function for the width, and the result's type is the width's.
    #[tactic(auto, using(crate::proofs::Spans::front), unfolding(crate::specs::Taking::take_array, crate::specs::Taking::take_number))]
    pub fn u64(&mut self) -> Option<u64>
        ensures source { self.new.src ≡ self.old.src }
        ensures taken { took result self.new.at ≡ take_number 8 self.old.src.now self.old.at }
        ensures stays { IsNone result → self.new.at ≡ self.old.at }
    {
        let bytes = self.array(8)?;
        Some(octets::u64_at(bytes, 0))
    }

    // As long as a hash is.
    pub fn array32(&mut self) -> Option<&'a [u8]>
        ensures source { self.new.src ≡ self.old.src }
        ensures taken { let found = take_array 32 self.old.src.now self.old.at in MatchOption result (found ≡ None) (λ b. Took self.old.src.now found b.now self.new.at) }
        ensures stays { IsNone result → self.new.at ≡ self.old.at }
    {
        self.array(32)
    }

    // A byte vector or a string: its length, and its bytes.
    #[tactic(auto, unfolding(crate::specs::Taking::take_vec, crate::specs::Taking::take_number))]
    pub fn vec(&mut self) -> Option<&'a [u8]>
        ensures source { self.new.src ≡ self.old.src }
        ensures taken { let found = take_vec self.old.src.now self.old.at in MatchOption result (found ≡ None) (λ b. Took self.old.src.now found b.now self.new.at) }
        ensures stays { IsNone result → self.new.at ≡ self.old.at }
    {
        let mut ahead = *self;
        let n = ahead.u32()?;
        let bytes = ahead.array(n as usize)?;
        *self = ahead;
        Some(bytes)
    }
}
