// The disk's area and its rule.
ghost use Rattle.std.specs.Prelude.{◌≡◌, ◌+◌, ◌-◌, ◌*◌, ◌≤◌, ◌<◌, leb};
ghost use Rattle.octets.specs.First.{all};
ghost use Rattle.layout.specs.Disk.{HeadSound, data_at, head_fits, entry_fits, slots, owner, len, sound};
ghost use Rattle.layout.specs.DiskLaws.{owners_joined};

use crate::names::names_fit;

// The offsets and limits of the disk's area. The type carries these constants; its field is the one
// thing that differs between disks.
#[derive(Clone, Copy)]
pub struct Disk {
    pub slots: usize,
}

impl Disk {
    pub const MOST_SLOTS: usize = 64;

    pub const SLOT_BYTES: usize = 4096;

    pub const MOST_DIRECTORIES: usize = 8;

    pub const SIDE_BYTES: usize = 512;

    // "tapedisk", as the area's first bytes.
    pub const MARK: u64 = 0x6b73_6964_6570_6174;

    // The words at the front.
    pub const SLOT_COUNT: usize = 8;

    pub const LEFT_LEN: usize = 16;

    pub const RIGHT_LEN: usize = 24;

    // The tables.
    pub const DIRECTORIES: usize = 32;

    pub const LEFT: usize = 288;

    pub const RIGHT: usize = 800;

    pub const ENTRIES: usize = 1312;

    pub const ENTRY_BYTES: usize = 24;

    // The slots, up to the end.
    pub const DATA: usize = 2848;
}

// How long the area of a disk of so many slots is at least.
pub fn disk_bytes(slots: usize) -> usize
    requires { slots ≤ 64 }
    ensures { result ≡ data_at slots }
{
    Disk::DATA + slots * Disk::SLOT_BYTES
}

// Whether the area is long enough and its first words are in range.
#[tactic(auto, unfolding(crate::specs::Disk::head_fits))]
fn head_fits(disk: &[u8]) -> bool
    ensures { result ≡ head_fits disk.now }
{
    if disk.len() < Disk::DATA {
        return false;
    }
    let slots = octets::u64_at(disk, Disk::SLOT_COUNT) as usize;
    octets::u64_at(disk, 0) == Disk::MARK
        && (1..=Disk::MOST_SLOTS).contains(&slots)
        && Disk::DATA + slots * Disk::SLOT_BYTES <= disk.len()
        && octets::u64_at(disk, Disk::LEFT_LEN) as usize <= Disk::SIDE_BYTES
        && octets::u64_at(disk, Disk::RIGHT_LEN) as usize <= Disk::SIDE_BYTES
}

// The file table of a disk whose head keeps the rule.
#[derive(Clone, Copy)]
struct Table<'a> {
    disk: &'a [u8],
    ghost head: { HeadSound disk.now },
}

impl Table<'_> {
    fn owner(&self, slot: usize) -> usize
        requires { slot < slots self.now.disk.now }
        ensures { result ≡ owner self.now.disk.now slot }
    {
        octets::u64_at(self.disk, Disk::ENTRIES + slot * Disk::ENTRY_BYTES) as usize
    }

    // Whether the file of a slot is no longer than the slot.
    fn length_fits(&self, slot: usize) -> bool
        requires { slot < slots self.now.disk.now }
        ensures { result ≡ leb (len self.now.disk.now slot) 4096 }
    {
        let len = octets::u64_at(self.disk, Disk::ENTRIES + slot * Disk::ENTRY_BYTES + 16) as usize;
        len <= Disk::SLOT_BYTES
    }

    // Whether the owner of a slot is a directory's place plus 1, or 0, and its file is no longer
    // than a slot.
    fn entry_fits(&self, slot: usize) -> bool
        requires { slot < slots self.now.disk.now }
        ensures { result ≡ entry_fits self.now.disk.now slot }
    {
        self.owner(slot) <= Disk::MOST_DIRECTORIES && self.length_fits(slot)
    }

    // The same of the slots from one on up to another.
    fn each_fits(&self, from: usize, to: usize) -> bool
        requires { to ≤ slots self.now.disk.now }
        ensures { result ≡ all (entry_fits self.now.disk.now) (to - from) from }
    {
        octets::all(from, to, |slot| self.entry_fits(slot))
    }

    // The same of eight slots. A loop of eight turns is unrolled, so that a slot costs its two tests
    // and no more; a run of any length is not.
    fn eight_fit(&self, slot: usize) -> bool
        requires { slot + 8 ≤ slots self.now.disk.now }
        ensures { result ≡ all (entry_fits self.now.disk.now) 8 slot }
    {
        octets::all(slot, slot + 8, |slot| self.entry_fits(slot))
    }

    // The same of the eights from one on up to another.
    fn eights_fit(&self, from: usize, to: usize) -> bool
        requires { 8 * to ≤ slots self.now.disk.now }
        ensures { result ≡ all (entry_fits self.now.disk.now) (8 * (to - from)) (8 * from) }
    {
        octets::all(from, to, |i| self.eight_fit(8 * i))
    }

    // The owners of eight slots joined by OR, which is no less than each of them.
    fn owners_joined(&self, slot: usize) -> usize
        requires { slot + 8 ≤ slots self.now.disk.now }
        ensures { result ≡ owners_joined self.now.disk.now slot }
    {
        let mut joined = 0;
        for i in 0..8 {
            joined |= self.owner(slot + i);
        }
        joined
    }

    // What `eight_fit` says, of eight slots whose owners join to no more than 8: each owner fits
    // then.
    fn lengths_fit(&self, slot: usize) -> bool
        requires { (slot + 8 ≤ slots self.now.disk.now) × (owners_joined self.now.disk.now slot ≤ 8) }
        ensures { result ≡ all (entry_fits self.now.disk.now) 8 slot }
    {
        octets::all(slot, slot + 8, |slot| self.length_fits(slot))
    }

    // Whether `entry_fits` holds of all slots. Every call pays this, so the owners of eight slots are
    // joined and the join is tested: an owner costs one instruction, where a test costs two. A join
    // above 8 need not mean a bad owner (8 and 1 join to 9: files of the eighth directory among
    // others'), so from there on each owner is tested.
    fn entries_fit(&self) -> bool
        ensures { result ≡ all (entry_fits self.now.disk.now) (slots self.now.disk.now) 0 }
    {
        let count = octets::u64_at(self.disk, Disk::SLOT_COUNT) as usize;
        let eights = count / 8;
        for i in 0..eights {
            if Disk::MOST_DIRECTORIES < self.owners_joined(8 * i) {
                return self.eights_fit(i, eights) && self.each_fits(8 * eights, count);
            }
            if !self.lengths_fit(8 * i) {
                return false;
            }
        }
        self.each_fits(8 * eights, count)
    }
}

// Whether a disk's area keeps the layout rule.
#[tactic(auto, unfolding(crate::specs::Disk::sound))]
pub fn is_sound_disk(disk: &[u8]) -> bool
    ensures { result ≡ sound disk.now }
{
    if !head_fits(disk) {
        return false;
    }
    names_fit(disk, Disk::DIRECTORIES) && Table { disk }.entries_fit()
}
