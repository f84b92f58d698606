// Numbered files: a row of the file table and 4,096 bytes of data for each slot.
ghost use Rattle.std.specs.Prelude.{◌≡◌, ◌+◌, ◌≤◌, ◌<◌, length};
ghost use Rattle.layout.specs.Disk.{Sound, slots};
ghost use Rattle.disk.specs.Steps.{after, entry_of, put_entry, removed, make_file, write_at, file_bytes};

use crate::search::{find_in, free_slot};
use layout::Disk;

// A slot's row.
#[derive(Clone, Copy, Debug, PartialEq, Eq)]
pub struct Entry {
    // The place of the directory that the file is in, plus 1; 0 if the slot is free. No
    // `Option`: `entry_of` and `put_entry` say the word as it stands.
    pub owner: usize,
    pub number: u64,
    // How many bytes the file has, at most 4,096.
    pub len: usize,
}

impl Entry {
    // The row of a slot that has no file.
    const FREE: Entry = Entry {
        owner: 0,
        number: 0,
        len: 0,
    };
}

pub fn slot_count(disk: &[u8]) -> usize
    requires { Sound disk.now }
    ensures { result ≡ slots disk.now }
{
    octets::u64_at(disk, Disk::SLOT_COUNT) as usize
}

#[tactic(auto, unfolding(crate::specs::Steps::entry_of))]
pub fn get_entry(disk: &[u8], slot: usize) -> Entry
    requires { Sound disk.now × (slot < slots disk.now) }
    ensures { result ≡ entry_of disk.now slot }
{
    let at = Disk::ENTRIES + slot * Disk::ENTRY_BYTES;
    Entry {
        owner: octets::u64_at(disk, at) as usize,
        number: octets::u64_at(disk, at + 8),
        len: octets::u64_at(disk, at + 16) as usize,
    }
}

fn put_entry(disk: &mut [u8], slot: usize, file: Entry)
    requires { Sound disk.old × (slot < slots disk.old) }
    ensures { disk.new ≡ put_entry disk.old slot file }
{
    let at = Disk::ENTRIES + slot * Disk::ENTRY_BYTES;
    octets::put_u64(disk, at, file.owner as u64);
    octets::put_u64(disk, at + 8, file.number);
    octets::put_u64(disk, at + 16, file.len as u64);
}

// Frees a slot. Its bytes stay until another file has the slot, and are no file's.
#[tactic(auto, unfolding(crate::specs::Steps::removed))]
pub fn remove_file(disk: &mut [u8], slot: usize)
    requires { Sound disk.old × (slot < slots disk.old) }
    ensures { disk.new ≡ removed disk.old slot }
{
    put_entry(disk, slot, Entry::FREE);
}

// The file of a directory and a number: met again with its bytes, or made with none in the first
// free slot; None, and no byte changed, if there is no such slot.
#[tactic(auto, unfolding(crate::specs::Steps::make_file))]
pub fn make_file(disk: &mut [u8], place: usize, number: u64) -> Option<usize>
    requires { Sound disk.old × (place < 8) }
    ensures { make_file disk.old place number ≡ after result disk.new }
{
    if let Some(slot) = find_in(disk, place, number) {
        return Some(slot);
    }
    let slot = free_slot(disk)?;
    put_entry(
        disk,
        slot,
        Entry {
            owner: place + 1,
            number,
            len: 0,
        },
    );
    Some(slot)
}

// The bytes of a slot's file, as a part of the area.
#[tactic(auto, unfolding(crate::specs::Steps::file_bytes, crate::specs::Steps::entry_of))]
pub fn file_part<'a>(disk: &'a [u8], slot: usize) -> &'a [u8]
    requires { Sound disk.now × (slot < slots disk.now) }
    ensures { result.now ≡ file_bytes disk.now slot }
{
    let data = Disk::DATA + slot * Disk::SLOT_BYTES;
    &disk[data..data + get_entry(disk, slot).len]
}

// Some bytes written at a place of a slot's file, zeros before them where it was shorter; the file
// never gets shorter.
#[tactic(auto, unfolding(crate::specs::Steps::write_at))]
pub fn write_at(disk: &mut [u8], slot: usize, at: usize, src: &[u8])
    requires { (Sound disk.old × (slot < slots disk.old)) × ((0 < length src.now) × (at + length src.now ≤ 4096)) }
    ensures { disk.new ≡ write_at disk.old slot at src.now }
{
    let row = Disk::ENTRIES + slot * Disk::ENTRY_BYTES;
    let data = Disk::DATA + slot * Disk::SLOT_BYTES;
    let old = octets::u64_at(disk, row + 16) as usize;
    octets::fill_zero(disk, data + old, data + at);
    octets::copy_in(disk, data + at, src);
    let end = old.max(at + src.len());
    octets::put_u64(disk, row + 16, end as u64);
}
