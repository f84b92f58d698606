// Directories: eight names, each with the files that it owns.
ghost use Rattle.std.specs.Prelude.{◌≡◌, ◌+◌, ◌≤◌, ◌<◌, length};
ghost use Rattle.layout.specs.Disk.{Sound, directories, slots};
ghost use Rattle.layout.specs.Names.{name, find_name};
ghost use Rattle.disk.specs.Steps.{after, add_directory, empty_slot, empty_directory};

use crate::files::{get_entry, remove_file, slot_count};
use layout::Disk;

// The name of a directory place; empty where the place is free.
pub fn directory_name<'a>(disk: &'a [u8], place: usize) -> &'a [u8]
    requires { Sound disk.now × (place < 8) }
    ensures { result.now ≡ name disk.now directories place }
{
    layout::name_at(disk, Disk::DIRECTORIES, place)
}

// The first place with this name; of the empty name, the first free place.
pub fn find_directory(disk: &[u8], name: &[u8]) -> Option<usize>
    requires { Sound disk.now }
    ensures { result ≡ find_name disk.now directories name.now }
{
    layout::find_name(disk, Disk::DIRECTORIES, name)
}

// A new directory in the first free place; None, and no byte changed, if there is none.
#[tactic(auto, unfolding(crate::specs::Steps::add_directory))]
pub fn add_directory(disk: &mut [u8], name: &[u8]) -> Option<usize>
    requires { Sound disk.old × (length name.now ≤ 24) }
    ensures { add_directory disk.old name.now ≡ after result disk.new }
{
    let place = layout::find_name(disk, Disk::DIRECTORIES, b"")?;
    layout::put_name(disk, Disk::DIRECTORIES, place, name);
    Some(place)
}

// Removes a slot's file if it is this directory's.
#[tactic(auto, unfolding(crate::specs::Steps::empty_slot, crate::specs::Steps::entry_of))]
fn empty_slot(disk: &mut [u8], place: usize, slot: usize)
    requires { Sound disk.old × ((place < 8) × (slot < slots disk.old)) }
    ensures { disk.new ≡ empty_slot place slot disk.old }
{
    if get_entry(disk, slot).owner == place + 1 {
        remove_file(disk, slot);
    }
}

// Removes every file of a directory; the directory stays.
pub fn empty_directory(disk: &mut [u8], place: usize)
    requires { Sound disk.old × (place < 8) }
    ensures { disk.new ≡ empty_directory disk.old place }
{
    for slot in 0..slot_count(disk) {
        empty_slot(disk, place, slot);
    }
}
