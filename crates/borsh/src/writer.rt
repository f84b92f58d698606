// A writer holds the bytes that are written and its place in them. Its caller has made room.
ghost use Rattle.std.specs.Prelude.{◌≡◌, ◌+◌, ◌≤◌, ◌<◌, ◌^◌, length};
ghost use Rattle.octets.specs.Bytes.{put};
ghost use Rattle.borsh.specs.Encoding.{u32, u64, array, vec};

#[derive(Drop)]
pub struct Writer<'a> {
    pub out: &'a mut [u8],
    pub at: usize,
}

impl<'a> Writer<'a> {
    pub fn new(out: &'a mut [u8], at: usize) -> Self
        ensures lent { result.out.ghost_name ≡ out.entry.ghost_name }
        ensures place { result.at ≡ at }
        ensures bytes { result.out.now ≡ out.old }
    {
        Writer { out, at }
    }

    #[tactic(auto, unfolding(octets::specs::Number::put_num))]
    pub fn u32(&mut self, v: u32)
        requires { self.old.at + 4 ≤ length self.old.out.now }
        ensures lent { self.new.out.ghost_name ≡ self.old.out.ghost_name }
        ensures place { self.new.at ≡ self.old.at + 4 }
        ensures bytes { self.new.out.now ≡ put self.old.out.now self.old.at (u32 v) }
    {
        octets::put_u32(self.out, self.at, v);
        self.at += 4;
    }

    // Beside `u32` and not one generic with it, as in `Reader`: the body is `octets`'s function for the width.
    #[tactic(auto, unfolding(octets::specs::Number::put_num))]
    pub fn u64(&mut self, v: u64)
        requires { self.old.at + 8 ≤ length self.old.out.now }
        ensures lent { self.new.out.ghost_name ≡ self.old.out.ghost_name }
        ensures place { self.new.at ≡ self.old.at + 8 }
        ensures bytes { self.new.out.now ≡ put self.old.out.now self.old.at (u64 v) }
    {
        octets::put_u64(self.out, self.at, v);
        self.at += 8;
    }

    // A fixed array of bytes.
    pub fn array(&mut self, bytes: &[u8])
        requires { self.old.at + length bytes.now ≤ length self.old.out.now }
        ensures lent { self.new.out.ghost_name ≡ self.old.out.ghost_name }
        ensures place { self.new.at ≡ self.old.at + length bytes.now }
        ensures bytes { self.new.out.now ≡ put self.old.out.now self.old.at (array bytes.now) }
    {
        octets::copy_in(self.out, self.at, bytes);
        self.at += bytes.len();
    }

    // A byte vector or a string of fewer than 2^32 bytes.
    pub fn vec(&mut self, bytes: &[u8])
        requires { (self.old.at + 4 + length bytes.now ≤ length self.old.out.now) × (length bytes.now < 2 ^ 32) }
        ensures lent { self.new.out.ghost_name ≡ self.old.out.ghost_name }
        ensures place { self.new.at ≡ self.old.at + 4 + length bytes.now }
        ensures bytes { self.new.out.now ≡ put self.old.out.now self.old.at (vec bytes.now) }
    {
        self.u32(bytes.len() as u32);
        self.array(bytes);
    }
}
