// The record: version, hash, epoch and the list's bytes. Short data and a wrong hash count as no
// record; the stored version is not looked at, and bytes behind the record are ignored.
ghost use Rattle.std.specs.Prelude.{◌≡◌, ◌+◌, ◌≤◌, ◌<◌, ◌^◌, length};
ghost use Rattle.octets.specs.Bytes.{put};
ghost use Rattle.octets.specs.Compare.{same_bytes};
ghost use Rattle.metadata.specs.Record.{hash_of, encode_record, writes_record, read_record};
ghost use Rattle.metadata.specs.Encoding.{after};

use crate::encode::{EncodeError, put_list, storable_len};
use crate::list::TapeList;
use borsh::{Reader, Writer};

// A record that stands at the front of a metadata file: its epoch, and how many bytes its list has.
#[derive(Clone, Copy, Debug, PartialEq, Eq)]
pub struct Record {
    pub epoch: u64,
    pub list_len: usize,
}

impl Record {
    // A record's bytes in front of its list's: version, hash, epoch and the list's length.
    pub const HEAD_BYTES: usize = 48;

    // Where its epoch stands.
    pub const EPOCH: usize = 36;
}

// What a record is of, and its hash too: an epoch and a list's bytes.
#[derive(Clone, Copy)]
struct Contents<'a> {
    epoch: u64,
    list: &'a [u8],
}

impl<'a> Contents<'a> {
    fn hash(self) -> [u8; 32]
        ensures { result ≡ hash_of self.entry.epoch self.entry.list.now }
    {
        let mut head = [0u8; 18];
        octets::copy_in(&mut head, 0, b"epoch");
        octets::put_u64(&mut head, 5, self.epoch);
        octets::copy_in(&mut head, 13, b"tapes");
        let mut hash = [0u8; 32];
        blake2b::blake2b_headed(&mut hash, 32, b"", &head, self.list).unwrap();
        hash
    }

    // Whether the hash that stands in a record is its own.
    fn agrees(self, stored: &[u8]) -> bool
        ensures { result ≡ same_bytes stored.now (hash_of self.entry.epoch self.entry.list.now) }
    {
        octets::same_bytes(stored, &self.hash())
    }

    // Its record, at the front of a buffer that has room for it.
    fn put(self, out: &mut [u8])
        requires { (length self.list.now < 2 ^ 32) × (48 + length self.list.now ≤ length out.old) }
        ensures { out.new ≡ put out.old 0 (encode_record self.entry.epoch self.entry.list.now) }
    {
        let hash = self.hash();
        let mut w = Writer::new(out, 0);
        w.u32(1);
        w.array(&hash);
        w.u64(self.epoch);
        w.vec(self.list);
    }
}

// What stands at the front of a metadata file, if it counts; else epoch 0 and the empty list do.
#[tactic(auto, unfolding(crate::specs::Record::read_record))]
pub fn read_record(s: &[u8]) -> Option<Record>
    ensures { result ≡ read_record s.now }
{
    let mut r = Reader::new(s, 0);
    let _version = r.u32()?;
    let hash = r.array32()?;
    let epoch = r.u64()?;
    let list = r.vec()?;
    let contents = Contents { epoch, list };
    if !contents.agrees(hash) {
        return None;
    }
    Some(Record {
        epoch,
        list_len: list.len(),
    })
}

// The record of an epoch and a list, written to the front of out.
#[tactic(auto, unfolding(crate::specs::Encoding::writes))]
pub fn encode_record(out: &mut [u8], epoch: u64, list: TapeList) -> Result<usize, EncodeError>
    ensures { writes_record epoch list out.old ≡ after result out.new }
{
    let n = storable_len(list)?;
    if out.len() < Record::HEAD_BYTES + n {
        return Err(EncodeError::NoRoom);
    }
    let mut bytes = [0u8; TapeList::MOST_LIST_BYTES];
    put_list(&mut bytes, list);
    let contents = Contents {
        epoch,
        list: &bytes[..n],
    };
    contents.put(out);
    Ok(Record::HEAD_BYTES + n)
}
