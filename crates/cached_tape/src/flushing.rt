// Bytes that go to a tape's files.
ghost use Rattle.std.specs.Prelude.{◌≡◌, ◌≢◌, ◌+◌, ◌≤◌, ◌<◌, ◌^◌, length};
ghost use Rattle.layout.specs.Disk.{Sound};
ghost use Rattle.layout.specs.Session.{session_bytes, Begun, handle_number, file_size_of, ring_len};
ghost use Rattle.rolling_tape.specs.Removal.{areas};
ghost use Rattle.rolling_tape.specs.Writing.{write_run};
ghost use Rattle.cached_tape.specs.Flushing.{cover_run, wrote, unwritten_bytes, flushed};

use session::Staged;

// The files of so many bytes from an offset on, made and tracked.
fn cover_run(
    disk: &mut [u8],
    session: &mut [u8],
    place: usize,
    file_size: u64,
    offset: u64,
    count: usize,
)
    requires { (Sound disk.old × (session_bytes ≤ length session.old)) × ((place < 8) × ((0 < file_size) × (offset + count < 2 ^ 64))) }
    ensures { cover_run (areas disk.old session.old) place file_size offset count ≡ areas disk.new session.new }
{
    let first = components::file_of(file_size, offset);
    let files = components::files_covered(file_size, offset, offset + count as u64);
    rolling_tape::cover(disk, session, place, first, files);
}

// Bytes written from an offset on, into files that are made where the disk lacks them.
pub fn write_through(
    disk: &mut [u8],
    session: &mut [u8],
    place: usize,
    file_size: u64,
    offset: u64,
    src: &[u8],
)
    requires { (Sound disk.old × (session_bytes ≤ length session.old)) × ((place < 8) × (((0 < file_size) × (file_size ≤ 4096)) × (offset + length src.now < 2 ^ 64))) }
    ensures { wrote (areas disk.old session.old) place file_size offset src.now ≡ areas disk.new session.new }
{
    cover_run(disk, session, place, file_size, offset, src.len());
    rolling_tape::write_run(disk, place, file_size, offset, src);
}

// The last bytes of a tape's ring, written from an offset on: in the ring they are two parts.
fn write_last(disk: &mut [u8], session: &[u8], place: usize, tape: usize, offset: u64, count: usize)
    requires { ((Sound disk.old × Begun session.now) × ((place < 8) × (tape < 8))) × ((handle_number session.now tape ≢ 0) × ((count ≤ ring_len session.now tape) × (offset + count < 2 ^ 64))) }
    ensures { disk.new ≡ write_run disk.old place (file_size_of session.now tape) offset (unwritten_bytes session.now tape count) }
{
    let file_size = session::get_handle(session, tape).file_size;
    let last = session::get_ring(session, tape).last(count);
    let bytes = session::ring_part(session, tape);
    let first = ring_buffer::first_part(last, bytes);
    rolling_tape::write_run(disk, place, file_size, offset, first);
    let behind = offset + first.len() as u64;
    let second = ring_buffer::second_part(last, bytes);
    rolling_tape::write_run(disk, place, file_size, behind, second);
}

// The bytes of a tape that the files lack, written to them.
pub fn flush(disk: &mut [u8], session: &mut [u8], place: usize, tape: usize, row: Staged)
    requires { ((Sound disk.old × Begun session.old) × ((place < 8) × (tape < 8))) × ((handle_number session.old tape ≢ 0) × (row.unwritten ≤ ring_len session.old tape)) }
    ensures { flushed (areas disk.old session.old) place tape row ≡ areas disk.new session.new }
{
    let count = row.unwritten;
    let offset = row.len.saturating_sub(count as u64);
    let file_size = session::get_handle(session, tape).file_size;
    cover_run(disk, session, place, file_size, offset, count);
    write_last(disk, session, place, tape, offset, count);
}
