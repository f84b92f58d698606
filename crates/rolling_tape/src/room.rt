// The files that a run of bytes would need and the disk lacks.
ghost use Rattle.std.specs.Prelude.{◌≡◌, ◌+◌, ◌≤◌, ◌<◌, ◌^◌, min};
ghost use Rattle.components.specs.Slots.{lacking_from};
ghost use Rattle.layout.specs.Disk.{Sound};
ghost use Rattle.rolling_tape.specs.Room.{on_disk};

// Whether a directory has the file of a number.
pub fn has_file(disk: &[u8], place: usize, number: u64) -> bool
    requires { Sound disk.now × (place < 8) }
    ensures { result ≡ on_disk disk.now place number }
{
    disk::find_in(disk, place, number).is_some()
}

// How many files of some numbers a directory lacks, counted up to a most: a long run is left as soon as
// it is known to be too long.
pub fn lacking_files(disk: &[u8], place: usize, first: u64, count: u64, most: u64) -> u64
    requires { (Sound disk.now × (place < 8)) × (first + count ≤ 2 ^ 64) }
    ensures { result ≡ min (lacking_from (on_disk disk.now place) first count) most }
{
    let mut lacking = 0;
    for done in 0..count {
        if most <= lacking {
            return most;
        }
        if !has_file(disk, place, first + done) {
            lacking += 1;
        }
    }
    lacking.min(most)
}
