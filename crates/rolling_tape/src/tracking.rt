// Which of a directory's files are tracked, and their marks.
ghost use Rattle.std.specs.Prelude.{◌≡◌, ◌≤◌, ◌<◌, length};
ghost use Rattle.layout.specs.Disk.{Sound, slots};
ghost use Rattle.layout.specs.Session.{session_bytes};
ghost use Rattle.rolling_tape.specs.Tracking.{is_tracked, is_ripe, marked, cleared, changed, retrack_slot, retracked};

use session::Tracking;

// A change of what is tracked, by the files' numbers.
#[derive(Clone, Copy, Debug, PartialEq, Eq)]
pub enum Change {
    // Making a file untracks those with higher numbers.
    UntrackAbove(u64),
    // Opening a known tape tracks its files up to that of its length, unmarked, and no others.
    TrackUpTo(u64),
    // Tracked files below the start's file are marked with an epoch, if they have no mark yet.
    MarkBelow { number: u64, epoch: u64 },
    // A truncate's commit clears the marks from the length's file on.
    ClearFrom(u64),
    // The tape is gone, or begins anew.
    UntrackAll,
}

pub fn is_tracked(now: Tracking) -> bool
    ensures { result ≡ is_tracked now }
{
    !matches!(now, Tracking::Untracked)
}

// Whether a file is marked below an epoch.
pub fn is_ripe(now: Tracking, oldest: u64) -> bool
    ensures { result ≡ is_ripe oldest now }
{
    matches!(now, Tracking::Marked(epoch) if epoch < oldest)
}

fn mark(now: Tracking, epoch: u64) -> Tracking
    ensures { result ≡ marked epoch now }
{
    match now {
        Tracking::Tracked => Tracking::Marked(epoch),
        _ => now,
    }
}

fn clear(now: Tracking) -> Tracking
    ensures { result ≡ cleared now }
{
    match now {
        Tracking::Marked(_) => Tracking::Tracked,
        _ => now,
    }
}

// What a change makes of the file of a number.
fn change_one(change: Change, number: u64, now: Tracking) -> Tracking
    ensures { result ≡ changed change number now }
{
    match change {
        Change::UntrackAbove(kept) if kept < number => Tracking::Untracked,
        Change::TrackUpTo(last) if number <= last => Tracking::Tracked,
        Change::TrackUpTo(_) => Tracking::Untracked,
        Change::MarkBelow {
            number: start,
            epoch,
        } if number < start => mark(now, epoch),
        Change::ClearFrom(first) if first <= number => clear(now),
        Change::UntrackAll => Tracking::Untracked,
        _ => now,
    }
}

// The change of one slot, if its file is in the directory.
fn retrack_slot(disk: &[u8], session: &mut [u8], place: usize, slot: usize, change: Change)
    requires { (Sound disk.now × (session_bytes ≤ length session.old)) × ((place < 8) × (slot < slots disk.now)) }
    ensures { session.new ≡ retrack_slot disk.now place change slot session.old }
{
    let file = disk::get_entry(disk, slot);
    if file.owner != place + 1 {
        return;
    }
    let now = session::get_tracking(session, slot);
    session::put_tracking(session, slot, change_one(change, file.number, now));
}

// The change of every file of a directory.
pub fn retrack(disk: &[u8], session: &mut [u8], place: usize, change: Change)
    requires { (Sound disk.now × (session_bytes ≤ length session.old)) × (place < 8) }
    ensures { session.new ≡ retracked disk.now session.old place change }
{
    for slot in 0..disk::slot_count(disk) {
        retrack_slot(disk, session, place, slot, change);
    }
}
