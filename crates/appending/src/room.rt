// The rule of 15: the files that all staged bytes need and the disk lacks.
ghost use Rattle.std.specs.Prelude.{◌≡◌, cond, ◌≢◌, ℕ, ◌+◌, ◌<◌, ◌^◌, min, eqb};
ghost use Rattle.layout.specs.Disk.{Sound};
ghost use Rattle.layout.specs.Session.{Begun};
ghost use Rattle.staging.specs.Seeing.{touched_as};
ghost use Rattle.appending.specs.Room.{low_of, end_of, lacking_in, is_staged, lacking_of, place_of, no_room};

use layout::Session;
use session::Staged;

// Where the staged bytes of a tape begin.
fn low_of(row: Staged) -> u64
    ensures { result ≡ low_of row }
{
    row.base.min(row.len.saturating_sub(row.unwritten as u64))
}

// Where they end, with some more behind them.
fn end_of(row: Staged, more: usize) -> u64
    requires { row.len + more < 2 ^ 64 }
    ensures { result ≡ end_of row more }
{
    let end = row.len + more as u64;
    end.max(row.unwritten as u64)
}

// How many files of the bytes from low up to an end a directory lacks, counted up to 65: no disk has more
// than 64 slots.
fn lacking_in(disk: &[u8], file_size: u64, low: u64, end: u64, directory: Option<usize>) -> u64
    requires { Sound disk.now × ((0 < file_size) × ((place : ℕ) → directory ≡ Some place → place < 8)) }
    ensures { result ≡ min (lacking_in disk.now file_size low end directory) 65 }
{
    let first = components::file_of(file_size, low);
    let count = components::files_covered(file_size, low, end);
    match directory {
        Some(place) => rolling_tape::lacking_files(disk, place, first, count, 65),
        None => count.min(65),
    }
}

// Whether a tape is staged: open, and touched or the one that is appended to.
fn is_staged(session: &[u8], to: Option<usize>, tape: usize) -> bool
    requires { Begun session.now × (tape < 8) }
    ensures { result ≡ is_staged session.now (place_of to) tape }
{
    if session::get_handle(session, tape).number == 0 {
        return false;
    }
    to == Some(tape) || session::get_staged(session, tape).touched
}

// How many files a tape lacks, up to 65, if `more` bytes are appended to the tape `to`.
fn lacking_of(disk: &[u8], session: &[u8], to: Option<usize>, more: usize, tape: usize) -> u64
    requires { (Sound disk.now × Begun session.now) × ((tape < 8) × ((touched_as session.now tape).len + (cond (eqb tape (place_of to)) more 0) < 2 ^ 64)) }
    ensures { result ≡ min (lacking_of disk.now session.now (place_of to) more tape) 65 }
{
    if !is_staged(session, to, tape) {
        return 0;
    }
    let row = staging::touched_as(session, tape);
    let behind = if to == Some(tape) { more } else { 0 };
    let file_size = session::get_handle(session, tape).file_size;
    let name = session::tape_name(session, tape);
    let directory = disk::find_directory(disk, name);
    lacking_in(disk, file_size, low_of(row), end_of(row, behind), directory)
}

// Whether files are too many, once `more` bytes are appended to the tape `to`, if to any.
pub fn no_room(disk: &[u8], session: &[u8], to: Option<usize>, more: usize) -> bool
    requires { (Sound disk.now × Begun session.now) × ((tape : ℕ) → to ≡ Some tape → (tape < 8) × ((touched_as session.now tape).len + more < 2 ^ 64)) }
    ensures { result ≡ no_room disk.now session.now (place_of to) more }
{
    let mut lacking = 0;
    for i in 0..Session::MOST_TAPES {
        lacking += lacking_of(disk, session, to, more, i);
    }
    (disk::slot_count(disk) as u64) < disk::count_files(disk) as u64 + lacking
}
