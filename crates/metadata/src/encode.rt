// The tape list written as bytes. A list that would not be read back is refused, and so is a buffer
// too small for it: then no byte is changed.
ghost use Rattle.std.specs.Prelude.{◌≡◌, true, false, ◌+◌, ◌≤◌, ◌<◌, ◌^◌, length, MatchResult};
ghost use Rattle.octets.specs.Bytes.{put};
ghost use Rattle.metadata.specs.Tapes.{encode_tape, encode_list};
ghost use Rattle.metadata.specs.Rules.{tape};
ghost use Rattle.metadata.specs.Struct.{tapes_of, storable};
ghost use Rattle.metadata.specs.Encoding.{after, writes_list};

use crate::list::{TapeList, TapeMetadata, TapeView};
use borsh::Writer;
use std::error::Error;
use std::fmt;

// Why nothing was written.
#[derive(Clone, Copy, Debug, PartialEq, Eq)]
pub enum EncodeError {
    // The list breaks the rule that a list is read by.
    NotStorable,
    // The buffer is too short.
    NoRoom,
}

impl fmt::Display for EncodeError {
    fn fmt<W: fmt::Write>(&self, f: &mut fmt::Formatter<W>) -> fmt::Result {
        match self {
            EncodeError::NotStorable => write!(f, "the list can't be stored"),
            EncodeError::NoRoom => write!(f, "the buffer is too short"),
        }
    }
}

impl Error for EncodeError {}

// Whether a list may be stored, that is, would be read back.
#[tactic(auto, unfolding(crate::specs::Struct::storable))]
pub fn is_storable(list: TapeList) -> bool
    ensures { result ≡ storable list }
{
    if TapeList::MOST_NAMES < list.count {
        return false;
    }
    let mut before: &[u8] = b"";
    for t in &list.tapes[..list.count] {
        if TapeMetadata::MOST_LETTERS < t.letters {
            return false;
        }
        let t = t.view();
        if !t.may_follow(before) {
            return false;
        }
        before = t.name;
    }
    true
}

// How many bytes a tape takes.
fn tape_len(t: TapeView<'_>) -> usize
    requires { length t.name.now ≤ 24 }
    ensures { result ≡ length (encode_tape (tape t.entry.name.now t.entry.len t.entry.start)) }
{
    20 + t.name.len()
}

// How many bytes a list takes.
fn encoded_len(list: TapeList) -> usize
    requires { storable list ≡ true }
    ensures { result ≡ length (encode_list (tapes_of list)) }
{
    let mut n = 4;
    for t in &list.tapes[..list.count] {
        n += tape_len(t.view());
    }
    n
}

fn put_tape(w: &mut Writer<'_>, t: TapeView<'_>)
    requires { (length t.name.now < 2 ^ 32) × (w.old.at + length (encode_tape (tape t.name.now t.len t.start)) ≤ length w.old.out.now) }
    ensures lent { w.new.out.ghost_name ≡ w.old.out.ghost_name }
    ensures place { w.new.at ≡ w.old.at + length (encode_tape (tape t.entry.name.now t.entry.len t.entry.start)) }
    ensures bytes { w.new.out.now ≡ put w.old.out.now w.old.at (encode_tape (tape t.entry.name.now t.entry.len t.entry.start)) }
{
    w.vec(t.name);
    w.u64(t.len);
    w.u64(t.start);
}

// A list that may be stored, at the front of a buffer that has room for it.
pub(crate) fn put_list(out: &mut [u8], list: TapeList)
    requires { (storable list ≡ true) × (length (encode_list (tapes_of list)) ≤ length out.old) }
    ensures { out.new ≡ put out.old 0 (encode_list (tapes_of list)) }
{
    let mut w = Writer::new(out, 0);
    w.u32(list.count as u32);
    for t in &list.tapes[..list.count] {
        put_tape(&mut w, t.view());
    }
}

// How many bytes a list takes, if it may be stored.
pub(crate) fn storable_len(list: TapeList) -> Result<usize, EncodeError>
    ensures { MatchResult result (λ n. (storable list ≡ true) × (n ≡ length (encode_list (tapes_of list)))) (λ e. (storable list ≡ false) × (e ≡ EncodeError.NotStorable)) }
{
    if !is_storable(list) {
        return Err(EncodeError::NotStorable);
    }
    Ok(encoded_len(list))
}

#[tactic(auto, unfolding(crate::specs::Encoding::writes))]
pub fn encode_list(out: &mut [u8], list: TapeList) -> Result<usize, EncodeError>
    ensures { writes_list list out.old ≡ after result out.new }
{
    let n = storable_len(list)?;
    if out.len() < n {
        return Err(EncodeError::NoRoom);
    }
    put_list(out, list);
    Ok(n)
}
