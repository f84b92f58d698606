// A run of bytes written over files: first every file that it lies in is made and tracked, then the
// bytes are written, so that they may come out of the session itself.
ghost use Rattle.std.specs.Prelude.{◌≡◌, ◌+◌, ◌≤◌, ◌<◌, ◌^◌, length};
ghost use Rattle.layout.specs.Disk.{Sound, slots};
ghost use Rattle.layout.specs.Session.{session_bytes};
ghost use Rattle.rolling_tape.specs.Removal.{areas};
ghost use Rattle.rolling_tape.specs.Writing.{was_tracked, track_file, make_tracked, covered, write_piece, write_run};

use crate::room::has_file;
use crate::tracking::{Change, is_tracked, retrack};
use components::Parts;
use session::Tracking;

// Whether the file in a slot was there before and is tracked. What the row of a free slot says is no
// file's.
fn was_tracked(session: &[u8], there: bool, slot: usize) -> bool
    requires { (session_bytes ≤ length session.now) × (slot < 64) }
    ensures { result ≡ was_tracked session.now there slot }
{
    there && is_tracked(session::get_tracking(session, slot))
}

// The file in a slot is tracked from now on; one that was not untracks those with higher numbers.
fn track_file(disk: &[u8], session: &mut [u8], place: usize, number: u64, there: bool, slot: usize)
    requires { (Sound disk.now × (session_bytes ≤ length session.old)) × ((place < 8) × (slot < slots disk.now)) }
    ensures { session.new ≡ track_file disk.now session.old place number there slot }
{
    if was_tracked(session, there, slot) {
        return;
    }
    retrack(disk, session, place, Change::UntrackAbove(number));
    session::put_tracking(session, slot, Tracking::Tracked);
}

// The file of a number made, or met again, and tracked. Where there is no slot nothing is changed; the
// rule of 15 sees to it that there is one.
fn make_tracked(disk: &mut [u8], session: &mut [u8], place: usize, number: u64)
    requires { (Sound disk.old × (session_bytes ≤ length session.old)) × (place < 8) }
    ensures { make_tracked (areas disk.old session.old) place number ≡ areas disk.new session.new }
{
    let there = has_file(disk, place, number);
    let Some(slot) = disk::make_file(disk, place, number) else {
        return;
    };
    track_file(disk, session, place, number, there, slot);
}

// The same for some numbers, one after the other.
pub fn cover(disk: &mut [u8], session: &mut [u8], place: usize, first: u64, count: u64)
    requires { (Sound disk.old × (session_bytes ≤ length session.old)) × ((place < 8) × (first + count ≤ 2 ^ 64)) }
    ensures { covered (areas disk.old session.old) place first count ≡ areas disk.new session.new }
{
    for done in 0..count {
        make_tracked(disk, session, place, first + done);
    }
}

// Some bytes written into the file of a number, at a place of it; nothing where there is no such file.
fn write_piece(disk: &mut [u8], place: usize, number: u64, at: usize, src: &[u8])
    requires { (Sound disk.old × (place < 8)) × ((0 < length src.now) × (at + length src.now ≤ 4096)) }
    ensures { disk.new ≡ write_piece disk.old place number at src.now }
{
    let Some(slot) = disk::find_in(disk, place, number) else {
        return;
    };
    disk::write_at(disk, slot, at, src);
}

// A run of bytes written from an offset on, over the files that are there.
pub fn write_run(disk: &mut [u8], place: usize, file_size: u64, offset: u64, src: &[u8])
    requires { (Sound disk.old × (place < 8)) × (((0 < file_size) × (file_size ≤ 4096)) × (offset + length src.now ≤ 2 ^ 64)) }
    ensures { disk.new ≡ write_run disk.old place file_size offset src.now }
{
    for part in Parts::new(file_size, offset, src.len()) {
        let end = part.from + part.count;
        write_piece(disk, place, part.file, part.place, &src[part.from..end]);
    }
}
