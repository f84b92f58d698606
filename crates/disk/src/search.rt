// Searches over the file table. Each ends at the first hit.
ghost use Rattle.std.specs.Prelude.{◌≡◌, ◌+◌, ◌-◌, ◌≤◌, ◌<◌};
ghost use Rattle.octets.specs.First.{all, first};
ghost use Rattle.layout.specs.Disk.{Sound, slots};
ghost use Rattle.disk.specs.Steps.{is_file, is_not, is_free, find_in, find_file, free_slot, files};

use crate::files::slot_count;
use layout::Disk;

// Whether a slot has the file of a directory and a number.
fn is_file(disk: &[u8], slot: usize, place: usize, number: u64) -> bool
    requires { Sound disk.now × ((slot < slots disk.now) × (place < 8)) }
    ensures { result ≡ is_file disk.now place number slot }
{
    let at = Disk::ENTRIES + slot * Disk::ENTRY_BYTES;
    // first the number, which fewer slots share
    octets::u64_at(disk, at + 8) == number && octets::u64_at(disk, at) as usize == place + 1
}

// Whether no slot from one on up to another has it.
fn each_lacks(disk: &[u8], from: usize, to: usize, place: usize, number: u64) -> bool
    requires { Sound disk.now × ((to ≤ slots disk.now) × (place < 8)) }
    ensures { result ≡ all (is_not disk.now place number) (to - from) from }
{
    octets::all(from, to, |slot| !is_file(disk, slot, place, number))
}

// Where a search may begin, since no slot before has the file. It goes by eights: a loop of eight
// turns is unrolled, and a slot with another number costs one test and no more.
fn search_from(disk: &[u8], place: usize, number: u64) -> usize
    requires { Sound disk.now × (place < 8) }
    ensures { (result ≤ slots disk.now) × (first (is_file disk.now place number) (slots disk.now - result) result ≡ find_in disk.now place number) }
{
    let eights = slot_count(disk) / 8;
    let met = octets::first(0, eights, |i| {
        !each_lacks(disk, 8 * i, 8 * i + 8, place, number)
    });
    8 * met.unwrap_or(eights)
}

fn is_free(disk: &[u8], slot: usize) -> bool
    requires { Sound disk.now × (slot < slots disk.now) }
    ensures { result ≡ is_free disk.now slot }
{
    octets::u64_at(disk, Disk::ENTRIES + slot * Disk::ENTRY_BYTES) == 0
}

// The slot of the file that a tape's name and a number say: the first in the directory of that name.
// The nested search with its label is a form that document 01 asks for (`DECISIONS.md` 51).
pub fn find_file(disk: &[u8], name: &[u8], number: u64) -> Option<usize>
    requires { Sound disk.now }
    ensures { result ≡ find_file disk.now name.now number }
{
    let count = slot_count(disk);
    'search: {
        for place in 0..Disk::MOST_DIRECTORIES {
            if layout::has_name(disk, Disk::DIRECTORIES, place, name) {
                for slot in search_from(disk, place, number)..count {
                    if is_file(disk, slot, place, number) {
                        break 'search Some(slot);
                    }
                }
                break 'search None;
            }
        }
        None
    }
}

// The same in a directory whose place is known.
#[tactic(auto, unfolding(crate::specs::Steps::find_in))]
pub fn find_in(disk: &[u8], place: usize, number: u64) -> Option<usize>
    requires { Sound disk.now × (place < 8) }
    ensures { result ≡ find_in disk.now place number }
{
    octets::first(search_from(disk, place, number), slot_count(disk), |slot| {
        is_file(disk, slot, place, number)
    })
}

// The first slot that has no file.
#[tactic(auto, unfolding(crate::specs::Steps::free_slot))]
pub fn free_slot(disk: &[u8]) -> Option<usize>
    requires { Sound disk.now }
    ensures { result ≡ free_slot disk.now }
{
    octets::first(0, slot_count(disk), |slot| is_free(disk, slot))
}

// How many files there are.
#[tactic(auto, unfolding(crate::specs::Steps::files))]
pub fn count_files(disk: &[u8]) -> usize
    requires { Sound disk.now }
    ensures { result ≡ files disk.now }
{
    octets::count(0, slot_count(disk), |slot| !is_free(disk, slot))
}
