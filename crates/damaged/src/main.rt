// Damaged memory, shown to the layout rules: one word of a sound area is changed, the verdict is
// printed, and the word is put back. Then `format` is asked for what it refuses. At the end the areas
// are compared with what they were.
#![tactic(auto)]

ghost use Rattle.std.specs.Prelude.{◌+◌, ◌≤◌, length};

use areas::FormatError;
use layout::{Disk, Session};
use metadata::{Side, TapeList};
use ring_buffer::RingBuffer;
use session::Handle;
use std::io;

fn say(rt: &impl Print, words: &[u8]) -> io::Result<()> {
    rt.write_all(words)
}

// One of two words, by whether something holds.
fn either(rt: &impl Print, label: &[u8], holds: bool, yes: &[u8], no: &[u8]) -> io::Result<()> {
    say(rt, label)?;
    say(rt, if holds { yes } else { no })
}

fn verdict(rt: &impl Print, label: &[u8], good: bool) -> io::Result<()> {
    either(rt, label, good, b": sound\n", b": refused\n")
}

fn fact(rt: &impl Print, label: &[u8], holds: bool) -> io::Result<()> {
    either(rt, label, holds, b": yes\n", b": no\n")
}

// A word of an area changed to a value, what the area's rule says then, and the word put back.
fn changed<F: Fn(&[u8]) -> bool>(
    rt: &impl Print,
    label: &[u8],
    area: &mut [u8],
    at: usize,
    value: u64,
    rule: F,
) -> io::Result<()>
    requires place { at + 8 ≤ length area.old }
    requires rule { F.IsAlwaysCallable rule }
{
    let old = octets::u64_at(area, at);
    octets::put_u64(area, at, value);
    let printed = verdict(rt, label, rule(area));
    octets::put_u64(area, at, old);
    printed
}

fn on_disk(
    rt: &impl Print,
    label: &[u8],
    disk: &mut [u8; 35616],
    at: usize,
    value: u64,
) -> io::Result<()>
    requires { at + 8 ≤ 35616 }
{
    changed(rt, label, disk, at, value, |area| {
        layout::is_sound_disk(area)
    })
}

fn on_session(
    rt: &impl Print,
    label: &[u8],
    session: &mut [u8; 38728],
    at: usize,
    value: u64,
) -> io::Result<()>
    requires { at + 8 ≤ 38728 }
{
    changed(rt, label, session, at, value, |area| {
        layout::is_sound_session(area)
    })
}

// What an area's rule says of its first n bytes.
fn front<F: Fn(&[u8]) -> bool>(
    rt: &impl Print,
    label: &[u8],
    area: &[u8],
    n: usize,
    rule: F,
) -> io::Result<()>
    requires { F.IsAlwaysCallable rule }
{
    if n <= area.len() {
        verdict(rt, label, rule(&area[..n]))?;
    }
    Ok(())
}

fn front_of_disk(rt: &impl Print, label: &[u8], disk: &[u8], n: usize) -> io::Result<()> {
    front(rt, label, disk, n, |area| layout::is_sound_disk(area))
}

fn front_of_session(rt: &impl Print, label: &[u8], session: &[u8], n: usize) -> io::Result<()> {
    front(rt, label, session, n, |area| {
        layout::is_sound_session(area)
    })
}

// A disk that is just long enough for its 8 slots.
fn disks(rt: &impl Print, disk: &mut [u8; 35616]) -> io::Result<()> {
    say(rt, b"the disk\n")?;
    verdict(rt, b"formatted", layout::is_sound_disk(disk))?;
    front_of_disk(rt, b"one byte too small", disk, 35615)?;
    front_of_disk(rt, b"no byte at all", disk, 0)?;
    on_disk(rt, b"no mark", disk, 0, 0)?;
    on_disk(rt, b"slot count 0", disk, Disk::SLOT_COUNT, 0)?;
    on_disk(
        rt,
        b"slot count 9, one slot too many for the area",
        disk,
        Disk::SLOT_COUNT,
        9,
    )?;
    on_disk(rt, b"slot count 65", disk, Disk::SLOT_COUNT, 65)?;
    on_disk(rt, b"left of 512 bytes", disk, Disk::LEFT_LEN, 512)?;
    on_disk(rt, b"left of 513 bytes", disk, Disk::LEFT_LEN, 513)?;
    on_disk(rt, b"right of 513 bytes", disk, Disk::RIGHT_LEN, 513)?;
    on_disk(
        rt,
        b"a directory's name of 25 bytes",
        disk,
        Disk::DIRECTORIES + 7 * 32,
        25,
    )?;
    files(rt, disk)
}

fn files(rt: &impl Print, disk: &mut [u8; 35616]) -> io::Result<()> {
    let last = Disk::ENTRIES + 7 * Disk::ENTRY_BYTES;
    on_disk(rt, b"owner 8, the last directory", disk, last, 8)?;
    on_disk(rt, b"owner 9", disk, last, 9)?;
    on_disk(rt, b"a file of 4096 bytes", disk, last + 16, 4096)?;
    on_disk(rt, b"a file of 4097 bytes", disk, last + 16, 4097)?;
    on_disk(
        rt,
        b"owner 9 behind the last slot",
        disk,
        last + Disk::ENTRY_BYTES,
        9,
    )
}

// A session that is just long enough, with one tape open.
fn sessions(rt: &impl Print, session: &mut [u8; 38728]) -> io::Result<()> {
    say(rt, b"the session\n")?;
    verdict(rt, b"with one tape open", layout::is_sound_session(session))?;
    fact(rt, b"begun", layout::is_begun_session(session))?;
    front_of_session(rt, b"one byte too small", session, 38727)?;
    on_session(rt, b"mark 0, no session", session, 0, 0)?;
    on_session(rt, b"mark 1", session, 0, 1)?;
    on_session(
        rt,
        b"a tape's name of 25 bytes",
        session,
        Session::NAMES,
        25,
    )?;
    let reader = Session::TRANSACTIONS + 15 * 24;
    on_session(rt, b"a reader in a reader's place", session, reader, 1)?;
    on_session(rt, b"an append in a reader's place", session, reader, 2)?;
    let writer = Session::TRANSACTIONS + Session::WRITER * 24;
    on_session(rt, b"a reader in the writer's place", session, writer, 1)?;
    on_session(rt, b"a truncate in the writer's place", session, writer, 3)?;
    on_session(rt, b"kind 4", session, writer, 4)?;
    tapes(rt, session)
}

fn tapes(rt: &impl Print, session: &mut [u8; 38728]) -> io::Result<()> {
    let row = Session::TAPES + 7 * Session::TAPE_BYTES;
    let ring = row + Session::RING;
    on_session(rt, b"entry size 0", session, row + 8, 0)?;
    on_session(rt, b"entry size 257", session, row + 8, 257)?;
    on_session(rt, b"file size 0", session, row + 16, 0)?;
    on_session(rt, b"file size 4097", session, row + 16, 4097)?;
    on_session(rt, b"a ring of 4097 bytes", session, ring, 4097)?;
    on_session(rt, b"a ring of no bytes", session, ring, 0)?;
    on_session(
        rt,
        b"a ring's start before its capacity",
        session,
        ring + 8,
        7,
    )?;
    on_session(rt, b"a ring's start at its capacity", session, ring + 8, 8)?;
    on_session(
        rt,
        b"more held than the ring has room for",
        session,
        ring + 16,
        9,
    )?;
    on_session(
        rt,
        b"more unwritten than held",
        session,
        row + Session::STAGED + 32,
        1,
    )?;
    on_session(
        rt,
        b"the row of a tape that is not open",
        session,
        row - Session::TAPE_BYTES + Session::RING + 8,
        9,
    )
}

fn asked(
    rt: &impl Print,
    label: &[u8],
    disk: &mut [u8],
    session: &mut [u8],
    slots: u64,
) -> io::Result<()> {
    say(rt, label)?;
    match areas::format(disk, session, slots) {
        Ok(()) => say(rt, b": done\n"),
        Err(FormatError::BadSlotCount) => say(rt, b": 8\n"),
        Err(FormatError::TooSmall) => say(rt, b": 1\n"),
    }
}

// The same on the first bytes of each area.
fn asked_short(
    rt: &impl Print,
    label: &[u8],
    disk: &mut [u8],
    m: usize,
    session: &mut [u8],
    n: usize,
    slots: u64,
) -> io::Result<()> {
    if m <= disk.len() {
        if n <= session.len() {
            asked(rt, label, &mut disk[..m], &mut session[..n], slots)?;
        }
    }
    Ok(())
}

// What `format` refuses.
fn refusals(rt: &impl Print, disk: &mut [u8; 35616], session: &mut [u8; 38728]) -> io::Result<()> {
    say(rt, b"format\n")?;
    asked(rt, b"slot count 0", disk, session, 0)?;
    asked(rt, b"slot count 65", disk, session, 65)?;
    asked(
        rt,
        b"slot count 9, one slot too many for the disk",
        disk,
        session,
        9,
    )?;
    asked_short(
        rt,
        b"a disk one byte too small",
        disk,
        35615,
        session,
        38728,
        8,
    )?;
    asked_short(
        rt,
        b"a session one byte too small",
        disk,
        35616,
        session,
        38727,
        8,
    )?;
    asked_short(
        rt,
        b"slot count 65 and no disk at all",
        disk,
        0,
        session,
        38728,
        65,
    )
}

// A formatted disk of 8 slots, and a session with one open tape: entry size 1, file size 4, and a ring
// of 8 bytes.
fn prepare(rt: &impl Print, disk: &mut [u8; 35616], session: &mut [u8; 38728]) -> io::Result<()> {
    asked(rt, b"format", disk, session, 8)?;
    session::begin(session, 0, Side::Left, TapeList::empty());
    session::put_handle(
        session,
        7,
        Handle {
            number: 1,
            entry: 1,
            file_size: 4,
        },
    );
    session::put_ring(session, 7, RingBuffer::new(8, 0));
    Ok(())
}

// Whether both areas are what they were.
fn compare(
    rt: &impl Print,
    disk_before: &[u8; 35616],
    disk: &[u8; 35616],
    session_before: &[u8; 38728],
    session: &[u8; 38728],
) -> io::Result<()> {
    fact(
        rt,
        b"the disk is as it was",
        octets::same_bytes(disk_before, disk),
    )?;
    fact(
        rt,
        b"the session is as it was",
        octets::same_bytes(session_before, session),
    )
}

fn once_more(rt: &impl Print, disk: &mut [u8; 35616], session: &mut [u8; 38728]) -> io::Result<()> {
    asked(rt, b"format once more", disk, session, 8)?;
    fact(rt, b"a session is begun", layout::is_begun_session(session))
}

fn main(rt: HostRuntime) -> io::Result<()> {
    let mut disk = [255u8; 35616];
    let mut session = [0u8; 38728];
    verdict(
        &rt,
        b"a session of zeros",
        layout::is_sound_session(&session),
    )?;
    fact(&rt, b"begun", layout::is_begun_session(&session))?;
    prepare(&rt, &mut disk, &mut session)?;
    let disk_before = disk;
    let session_before = session;
    disks(&rt, &mut disk)?;
    sessions(&rt, &mut session)?;
    refusals(&rt, &mut disk, &mut session)?;
    compare(&rt, &disk_before, &disk, &session_before, &session)?;
    once_more(&rt, &mut disk, &mut session)
}
