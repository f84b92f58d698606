// Where the held bytes stand, how many they are, and which of the tape's they are. Each step stands
// once, over a bookkeeping that is lent (document 01: it is "lent and updated, apart from the bytes").
ghost use Rattle.std.specs.Prelude.{◌≡◌, ◌≤◌};
ghost use Rattle.ring_buffer.specs.Ring.{Sound, fresh, reset_to, pushed, popped, truncated, prepared, last_held};

// No invariant says that the ring lies inside its capacity: a closed tape's ring has the capacity 0, and
// damaged memory has others. The functions that need it ask for `Sound`.
#[derive(Clone, Copy, Debug, PartialEq, Eq)]
pub struct RingBuffer {
    // How many bytes the ring has room for.
    pub capacity: usize,
    // The place of the first held byte.
    pub start: usize,
    // How many bytes are held, at most the capacity.
    pub len: usize,
    // The index in the tape of the first held byte, from which on reads are the cache's; of an empty
    // ring it may lie above the tape's length.
    pub first: u64,
}

impl RingBuffer {
    // A ring that holds nothing.
    pub fn new(capacity: usize, first: u64) -> Self
        ensures { result ≡ fresh capacity first }
    {
        RingBuffer {
            capacity,
            start: 0,
            len: 0,
            first,
        }
    }

    // The ring after its first `len` bytes were filled with the tape's from an index on.
    pub fn reset(self, len: usize, first: u64) -> Self
        ensures { result ≡ reset_to self len first }
    {
        RingBuffer {
            start: 0,
            len,
            first,
            ..self
        }
    }

    // n bytes were pushed, before which `missed` bytes went by the ring. In a legal state no index
    // passes 2^64; in damaged memory it wraps.
    pub fn push_lent(&mut self, n: usize, missed: u64)
        requires { Sound self.old self.old.capacity × (n ≤ self.old.capacity) }
        ensures { self.new ≡ pushed self.old n missed }
    {
        let all = self.len + n;
        let over = all.saturating_sub(self.capacity);
        self.start = (self.start + over) % self.capacity;
        self.len = all.min(self.capacity);
        self.first = self.first.wrapping_add(over as u64).wrapping_add(missed);
    }

    // An amount of bytes was taken back from the end; what the ring does not hold moves its first index
    // down, at most to 0.
    pub fn pop_lent(&mut self, amount: u64)
        ensures { self.new ≡ popped self.old amount }
    {
        let len = self.len as u64;
        self.len = len.saturating_sub(amount) as usize;
        self.first = self.first.saturating_sub(amount.saturating_sub(len));
    }

    // The tape was cut to a length. The first index stays, so that an old window still finds its bytes
    // above the length.
    pub fn truncate_lent(&mut self, tape_len: u64)
        ensures { self.new ≡ truncated self.old tape_len }
    {
        let room = tape_len.saturating_sub(self.first);
        self.len = (self.len as u64).min(room) as usize;
    }

    // Before a write: an empty ring takes the tape's length as its first index.
    pub fn prepare_lent(&mut self, tape_len: u64)
        ensures { self.new ≡ prepared self.old tape_len }
    {
        if self.len == 0 {
            self.first = tape_len;
        }
    }

    // The same four by value, for a ring that stands in the session's bytes. docs/DECISIONS.md names both
    // forms, and must-fail edits hold both.
    pub fn push(mut self, n: usize, missed: u64) -> Self
        requires { Sound self self.capacity × (n ≤ self.capacity) }
        ensures { result ≡ pushed self n missed }
    {
        self.push_lent(n, missed);
        self
    }

    pub fn pop(mut self, amount: u64) -> Self
        ensures { result ≡ popped self amount }
    {
        self.pop_lent(amount);
        self
    }

    pub fn truncate(mut self, tape_len: u64) -> Self
        ensures { result ≡ truncated self tape_len }
    {
        self.truncate_lent(tape_len);
        self
    }

    pub fn prepare_write(mut self, tape_len: u64) -> Self
        ensures { result ≡ prepared self tape_len }
    {
        self.prepare_lent(tape_len);
        self
    }

    // A ring over the last n of the held bytes alone.
    pub fn last(self, n: usize) -> Self
        requires { Sound self self.capacity × (n ≤ self.len) }
        ensures { result ≡ last_held self n }
    {
        let before = self.len - n;
        RingBuffer {
            start: (self.start + before) % self.capacity,
            len: n,
            first: self.first.wrapping_add(before as u64),
            ..self
        }
    }
}
