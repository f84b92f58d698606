// A run of bytes read across files. Whether it can be read is found out before the first byte is.
ghost use Rattle.std.specs.Prelude.{◌≡◌, true, ◌+◌, ◌≤◌, ◌<◌, ◌^◌, length};
ghost use Rattle.layout.specs.Disk.{Sound};
ghost use Rattle.layout.specs.Session.{session_bytes};
ghost use Rattle.rolling_tape.specs.Reading.{may_read, piece_lies, can_read, piece_there, piece_bytes, lies, read_run};

use crate::tracking::is_tracked;
use components::Parts;

// Whether the file in a slot may be read: where only tracked ones may, it has to be one.
fn may_read(session: &[u8], only_tracked: bool, slot: usize) -> bool
    requires { (session_bytes ≤ length session.now) × (slot < 64) }
    ensures { result ≡ may_read session.now only_tracked slot }
{
    !only_tracked || is_tracked(session::get_tracking(session, slot))
}

// Whether the file of a tape's number may be read and reaches up to a place.
fn piece_lies(
    disk: &[u8],
    session: &[u8],
    only_tracked: bool,
    tape: &[u8],
    number: u64,
    end: usize,
) -> bool
    requires { Sound disk.now × (session_bytes ≤ length session.now) }
    ensures { result ≡ piece_lies disk.now session.now only_tracked tape.now number end }
{
    let Some(slot) = disk::find_file(disk, tape, number) else {
        return false;
    };
    may_read(session, only_tracked, slot) && end <= disk::get_entry(disk, slot).len
}

// Whether so many bytes of a tape from an offset on stand in its files.
pub fn can_read(
    disk: &[u8],
    session: &[u8],
    only_tracked: bool,
    tape: &[u8],
    file_size: u64,
    offset: u64,
    count: usize,
) -> bool
    requires { (Sound disk.now × (session_bytes ≤ length session.now)) × (((0 < file_size) × (file_size ≤ 4096)) × (offset + count ≤ 2 ^ 64)) }
    ensures { result ≡ can_read disk.now session.now only_tracked tape.now file_size offset count }
{
    for part in Parts::new(file_size, offset, count) {
        let end = part.place + part.count;
        if !piece_lies(disk, session, only_tracked, tape, part.file, end) {
            return false;
        }
    }
    true
}

// Fills out with the bytes of a tape's file from a place on.
fn read_piece(disk: &[u8], tape: &[u8], number: u64, place: usize, out: &mut [u8])
    requires { Sound disk.now × (piece_there disk.now tape.now number (place + length out.old) ≡ true) }
    ensures { out.new ≡ piece_bytes disk.now tape.now number place (length out.old) }
{
    let Some(slot) = disk::find_file(disk, tape, number) else {
        return;
    };
    let part = disk::file_part(disk, slot);
    let end = place + out.len();
    octets::copy_in(out, 0, &part[place..end]);
}

// Fills out with a tape's bytes from an offset on.
pub fn read_run(disk: &[u8], tape: &[u8], file_size: u64, offset: u64, out: &mut [u8])
    requires { (Sound disk.now × ((0 < file_size) × (file_size ≤ 4096))) × ((offset + length out.old ≤ 2 ^ 64) × (lies disk.now tape.now file_size offset (length out.old) ≡ true)) }
    ensures { out.new ≡ read_run disk.now tape.now file_size offset (length out.old) }
{
    for part in Parts::new(file_size, offset, out.len()) {
        let end = part.from + part.count;
        read_piece(disk, tape, part.file, part.place, &mut out[part.from..end]);
    }
}
