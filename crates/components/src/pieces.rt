// The file of an offset, the place in it, and the room behind it; and the parts of a run of bytes, each
// in one file. None of these sums passes 2^64, also at the offset 2^64-1.
ghost use Rattle.std.specs.Prelude.{◌≡◌, ◌+◌, ◌-◌, ◌<◌, ◌≤◌, ◌^◌};
ghost use Rattle.components.specs.Pieces.{file_of, place_in, left_in};
ghost use Rattle.components.specs.Parts.{parts_from, MayGive, GivesPart, left_over};

pub fn file_of(file_size: u64, offset: u64) -> u64
    requires { 0 < file_size }
    ensures { result ≡ file_of file_size offset }
{
    offset / file_size
}

pub fn place_in(file_size: u64, offset: u64) -> u64
    requires { 0 < file_size }
    ensures { result ≡ place_in file_size offset }
{
    offset % file_size
}

pub fn left_in(file_size: u64, offset: u64) -> u64
    requires { 0 < file_size }
    ensures { result ≡ left_in file_size offset }
{
    file_size - offset % file_size
}

// What of a run of bytes lies in one file.
#[derive(Clone, Copy, Debug, PartialEq, Eq)]
pub struct Part {
    // The file's number, and the place in it.
    pub file: u64,
    pub place: usize,
    // Where the part begins in the run, and how many bytes it has.
    pub from: usize,
    pub count: usize,
}

// The parts of a run of bytes, in order.
#[derive(Clone, Debug, Drop)]
pub struct Parts {
    file_size: u64,
    offset: u64,
    count: usize,
    // How many of the run's bytes were given.
    done: usize,
}

impl Parts {
    // Those of so many bytes from an offset on.
    pub fn new(file_size: u64, offset: u64, count: usize) -> Self
        ensures { result ≡ parts_from file_size offset count 0 }
    {
        Parts {
            file_size,
            offset,
            count,
            done: 0,
        }
    }
}

impl Iterator for Parts {
    type Item = Part;

    ghost can_next = { MayGive };

    ghost next_gives = { GivesPart };

    ghost remaining = { left_over };

    fn next(&mut self) -> Option<Part> {
        if self.done == self.count {
            return None;
        }
        let here = self.offset + self.done as u64;
        let left = left_in(self.file_size, here) as usize;
        let part = Part {
            file: file_of(self.file_size, here),
            place: place_in(self.file_size, here) as usize,
            from: self.done,
            count: (self.count - self.done).min(left),
        };
        self.done += part.count;
        Some(part)
    }
}
