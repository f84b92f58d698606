// The list of tapes as a value, with its limits.
ghost use Rattle.std.specs.Prelude.{◌≡◌, [], ◌≤◌, length};
ghost use Rattle.metadata.specs.Tapes.{fits};
ghost use Rattle.metadata.specs.Rules.{tape};
ghost use Rattle.metadata.specs.Struct.{stored, blank, list_of, meaning};

use crate::name::is_name;

// One tape of the list. What stands in `name` behind the letters is not looked at; this crate makes
// it zeros.
#[derive(Clone, Copy, Debug)]
pub struct TapeMetadata {
    // How many bytes of `name` are the name. Kept beside it: no heap, so the name lies in fixed memory.
    pub letters: usize,
    pub name: [u8; TapeMetadata::MOST_LETTERS],
    pub len: u64,
    pub start: u64,
}

// The first `count` of the tapes, by name in byte order. What stands behind them is not looked at;
// this crate makes it blank. A list that breaks the rule is `NotStorable`.
#[derive(Clone, Copy, Debug)]
pub struct TapeList {
    // Kept beside the tapes: no heap, so they lie in fixed memory.
    pub count: usize,
    pub tapes: [TapeMetadata; TapeList::MOST_NAMES],
}

// A tape whose name lies in other bytes.
#[derive(Clone, Copy)]
pub(crate) struct TapeView<'a> {
    pub name: &'a [u8],
    pub len: u64,
    pub start: u64,
}

impl TapeMetadata {
    pub const MOST_LETTERS: usize = 24;

    pub fn blank() -> Self
        ensures { result ≡ blank }
    {
        TapeMetadata {
            letters: 0,
            name: [0; TapeMetadata::MOST_LETTERS],
            len: 0,
            start: 0,
        }
    }

    // The tape, its name a part of the array that holds it.
    pub(crate) fn view(&self) -> TapeView<'_>
        requires { self.now.letters ≤ 24 }
        ensures { tape result.name.now result.len result.start ≡ meaning self.now }
    {
        TapeView {
            name: &self.name[..self.letters],
            len: self.len,
            start: self.start,
        }
    }
}

impl TapeList {
    pub const MOST_NAMES: usize = 8;

    pub const MOST_LIST_BYTES: usize = 356;

    pub const MOST_RECORD_BYTES: usize = 404;

    #[tactic(auto, unfolding(crate::specs::Struct::list_of))]
    pub fn empty() -> Self
        ensures { result ≡ list_of [] }
    {
        let tapes = [TapeMetadata::blank(); TapeList::MOST_NAMES];
        TapeList { count: 0, tapes }
    }
}

impl<'a> TapeView<'a> {
    // Whether it may stand behind a tape of that name in a list that is stored.
    #[tactic(auto, unfolding(crate::specs::Tapes::fits))]
    pub(crate) fn may_follow(self, before: &[u8]) -> bool
        ensures { result ≡ fits before.now (tape self.entry.name.now self.entry.len self.entry.start) }
    {
        octets::comes_before(before, self.name) && is_name(self.name) && self.start <= self.len
    }

    // The tape as a value, its name copied.
    pub(crate) fn stored(self) -> TapeMetadata
        requires { length self.name.now ≤ 24 }
        ensures { result ≡ stored (tape self.entry.name.now self.entry.len self.entry.start) }
    {
        let mut name = [0u8; TapeMetadata::MOST_LETTERS];
        octets::copy_in(&mut name, 0, self.name);
        TapeMetadata {
            letters: self.name.len(),
            name,
            len: self.len,
            start: self.start,
        }
    }
}
