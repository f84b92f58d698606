// Which of the two metadata files counts: left if its epoch is larger, else right.
ghost use Rattle.std.specs.Prelude.{◌≡◌, ltb};
ghost use Rattle.metadata.specs.Struct.{decoded_of};
ghost use Rattle.metadata.specs.Record.{read_record};
ghost use Rattle.metadata.specs.Choice.{epoch_of, part_of, chosen, next_side, chosen_epoch, chosen_list};

use crate::decode::decode_list;
use crate::list::TapeList;
use crate::record::{Record, read_record};

#[derive(Clone, Copy, Debug, PartialEq, Eq)]
pub enum Side {
    Left,
    Right,
}

// Whether the record in left counts: its epoch is the larger. Where nothing counts the epoch is 0.
fn left_counts(left: Option<Record>, right: Option<Record>) -> bool
    ensures { result ≡ ltb (epoch_of right) (epoch_of left) }
{
    let in_left = left.map_or(0, |r| r.epoch);
    let in_right = right.map_or(0, |r| r.epoch);
    in_right < in_left
}

// The record at the front of a file, without what stands behind it; empty where nothing counts.
fn record_part<'a>(s: &'a [u8], r: Option<Record>) -> &'a [u8]
    requires { r ≡ read_record s.now }
    ensures { result.now ≡ part_of s.now r }
{
    match r {
        Some(r) => &s[..Record::HEAD_BYTES + r.list_len],
        None => &s[..0],
    }
}

// The record that counts, as the caller's own bytes.
#[tactic(auto, unfolding(crate::specs::Choice::chosen, crate::specs::Choice::left_counts))]
pub fn pick<'a>(left: &'a [u8], right: &'a [u8]) -> &'a [u8]
    ensures { result.now ≡ chosen left.now right.now }
{
    let in_left = read_record(left);
    let in_right = read_record(right);
    if left_counts(in_left, in_right) {
        return record_part(left, in_left);
    }
    record_part(right, in_right)
}

// The file that the next record goes to: the one that was not picked.
#[tactic(auto, unfolding(crate::specs::Choice::next_side, crate::specs::Choice::left_counts))]
pub fn next_side(left: &[u8], right: &[u8]) -> Side
    ensures { result ≡ next_side left.now right.now }
{
    if left_counts(read_record(left), read_record(right)) {
        return Side::Right;
    }
    Side::Left
}

// The epoch of a record that `pick` handed on; 0 where nothing counts. Its hash is not looked at again.
#[tactic(auto, unfolding(crate::specs::Choice::chosen_epoch))]
pub fn epoch_of(record: &[u8]) -> u64
    ensures { result ≡ chosen_epoch «record».now }
{
    if record.len() < Record::HEAD_BYTES {
        return 0;
    }
    octets::u64_at(record, Record::EPOCH)
}

// The list of a record that `pick` handed on; the empty one where nothing counts. Its hash is not
// looked at again.
#[tactic(auto, unfolding(crate::specs::Choice::chosen_list))]
pub fn list_of(record: &[u8]) -> Option<TapeList>
    ensures { result ≡ decoded_of (chosen_list «record».now) }
{
    if record.len() < Record::HEAD_BYTES {
        return Some(TapeList::empty());
    }
    decode_list(&record[Record::HEAD_BYTES..])
}
