// The tape list read from bytes. Whatever document 01 answers 17 is not readable: a list that is cut
// short or has a byte over, more than eight tapes, a name outside the rule, names unsorted or
// repeated, a start above its length.
ghost use Rattle.std.specs.Prelude.{◌≡◌, [], ◌≤◌, MatchOption};
ghost use Rattle.metadata.specs.Rules.{tape};
ghost use Rattle.metadata.specs.Struct.{decoded_of};
ghost use Rattle.metadata.specs.Decoding.{take_tape, next_tape, TookTape, decode_from, decode_list};

use crate::list::{TapeList, TapeView};
use borsh::Reader;

// One tape, whatever its name and numbers are.
#[tactic(auto, unfolding(crate::specs::Decoding::take_tape))]
fn take_tape<'a>(r: &mut Reader<'a>) -> Option<TapeView<'a>>
    ensures source { r.new.src ≡ r.old.src }
    ensures taken { let found = take_tape r.old.src.now r.old.at in MatchOption result (found ≡ None) (λ t. TookTape r.old.src.now found (tape t.name.now t.len t.start) r.new.at) }
{
    let name = r.vec()?;
    let len = r.u64()?;
    let start = r.u64()?;
    Some(TapeView { name, len, start })
}

// One tape that may follow the name before it.
#[tactic(auto, unfolding(crate::specs::Decoding::next_tape))]
fn next_tape<'a>(r: &mut Reader<'a>, before: &[u8]) -> Option<TapeView<'a>>
    ensures source { r.new.src ≡ r.old.src }
    ensures taken { let found = next_tape before.now r.old.src.now r.old.at in MatchOption result (found ≡ None) (λ t. TookTape r.old.src.now found (tape t.name.now t.len t.start) r.new.at) }
{
    let t = take_tape(r)?;
    if !t.may_follow(before) {
        return None;
    }
    Some(t)
}

// The tapes from the reader's place on, and nothing behind them.
fn decode_tapes(mut r: Reader<'_>, count: usize) -> Option<TapeList>
    requires { count ≤ 8 }
    ensures { result ≡ decoded_of (decode_from count [] r.entry.src.now r.entry.at) }
{
    let mut list = TapeList::empty();
    let mut before: &[u8] = b"";
    for i in 0..count {
        let t = next_tape(&mut r, before)?;
        list.tapes[i] = t.stored();
        before = t.name;
    }
    if r.at != r.src.len() {
        return None;
    }
    list.count = count;
    Some(list)
}

#[tactic(auto, unfolding(crate::specs::Decoding::decode_list))]
pub fn decode_list(s: &[u8]) -> Option<TapeList>
    ensures { result ≡ decoded_of (decode_list s.now) }
{
    let mut r = Reader::new(s, 0);
    let count = r.u32()? as usize;
    if TapeList::MOST_NAMES < count {
        return None;
    }
    decode_tapes(r, count)
}
