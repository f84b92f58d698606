// Removal of marked files, from the lowest number on.
ghost use Rattle.std.specs.Prelude.{◌≡◌, ◌≤◌, ◌<◌, length};
ghost use Rattle.layout.specs.Disk.{Sound, slots};
ghost use Rattle.layout.specs.Session.{session_bytes};
ghost use Rattle.rolling_tape.specs.Removal.{areas, stops, clear_below, goes, remove_slot, remove_ripe};

use crate::tracking::{is_ripe, is_tracked};
use session::Tracking;

// Whether a slot has a tracked file of the directory, up to a number, that may not go.
fn stops_below(
    disk: &[u8],
    session: &[u8],
    place: usize,
    oldest: u64,
    number: u64,
    slot: usize,
) -> bool
    requires { (Sound disk.now × (session_bytes ≤ length session.now)) × ((place < 8) × (slot < slots disk.now)) }
    ensures { result ≡ stops disk.now session.now place oldest number slot }
{
    let file = disk::get_entry(disk, slot);
    if file.owner != place + 1 || number < file.number {
        return false;
    }
    let now = session::get_tracking(session, slot);
    is_tracked(now) && !is_ripe(now, oldest)
}

// Whether every tracked file of the directory up to a number may go.
fn clear_below(disk: &[u8], session: &[u8], place: usize, oldest: u64, number: u64) -> bool
    requires { (Sound disk.now × (session_bytes ≤ length session.now)) × (place < 8) }
    ensures { result ≡ clear_below disk.now session.now place oldest number }
{
    octets::all(0, disk::slot_count(disk), |slot| {
        !stops_below(disk, session, place, oldest, number, slot)
    })
}

// Whether the file of a slot goes.
fn goes_now(disk: &[u8], session: &[u8], place: usize, oldest: u64, slot: usize) -> bool
    requires { (Sound disk.now × (session_bytes ≤ length session.now)) × ((place < 8) × (slot < slots disk.now)) }
    ensures { result ≡ goes disk.now session.now place oldest slot }
{
    let file = disk::get_entry(disk, slot);
    if file.owner != place + 1 {
        return false;
    }
    is_ripe(session::get_tracking(session, slot), oldest)
        && clear_below(disk, session, place, oldest, file.number)
}

fn remove_slot(disk: &mut [u8], session: &mut [u8], place: usize, oldest: u64, slot: usize)
    requires { (Sound disk.old × (session_bytes ≤ length session.old)) × ((place < 8) × (slot < slots disk.old)) }
    ensures { remove_slot place oldest slot (areas disk.old session.old) ≡ areas disk.new session.new }
{
    if goes_now(disk, session, place, oldest, slot) {
        disk::remove_file(disk, slot);
        session::put_tracking(session, slot, Tracking::Untracked);
    }
}

// Removes each file of a directory that is marked below an epoch, if every tracked file up to it is.
pub fn remove_ripe(disk: &mut [u8], session: &mut [u8], place: usize, oldest: u64)
    requires { (Sound disk.old × (session_bytes ≤ length session.old)) × (place < 8) }
    ensures { remove_ripe (areas disk.old session.old) place oldest ≡ areas disk.new session.new }
{
    for slot in 0..disk::slot_count(disk) {
        remove_slot(disk, session, place, oldest, slot);
    }
}
