// The steps of a commit, each over all tapes.
// The five loops that do so stay as they are: a function that takes the step as a closure over both lent
// areas saves no line of `for tape in 0..Session::MOST_TAPES { step(.., tape); }`.
ghost use Rattle.std.specs.Prelude.{◌≡◌, true, ◌+◌, ◌≤◌, ◌<◌, ◌^◌, length};
ghost use Rattle.metadata.specs.Struct.{storable};
ghost use Rattle.layout.specs.Disk.{Sound};
ghost use Rattle.layout.specs.Session.{session_bytes, Begun};
ghost use Rattle.session.specs.Rows.{head_of};
ghost use Rattle.rolling_tape.specs.Removal.{areas};
ghost use Rattle.ending.specs.Steps.{flush_tape, flush_all, publish_tape, publish_all, recorded, other_side, advanced, ripen_tape, ripen_all, cut_ring, cut_tape, cut_all, unstage, close_writer};

use crate::listing::{directory_of, is_touched, published_view};
use layout::Session;
use metadata::{Side, TapeList};
use rolling_tape::Change;
use session::{Head, Staged, Transaction};

// ---- what the files lack

#[tactic(auto, unfolding(crate::specs::Steps::flush_tape))]
fn flush_tape(disk: &mut [u8], session: &mut [u8], tape: usize)
    requires { (Sound disk.old × Begun session.old) × (tape < 8) }
    ensures { flush_tape tape (areas disk.old session.old) ≡ areas disk.new session.new }
{
    if !is_touched(session, tape) {
        return;
    }
    let Some(place) = directory_of(disk, session, tape) else {
        return;
    };
    let row = session::get_staged(session, tape);
    cached_tape::flush(disk, session, place, tape, row);
}

pub fn flush_all(disk: &mut [u8], session: &mut [u8])
    requires { Sound disk.old × Begun session.old }
    ensures { flush_all (areas disk.old session.old) ≡ areas disk.new session.new }
{
    for tape in 0..Session::MOST_TAPES {
        flush_tape(disk, session, tape);
    }
}

// ---- the list

#[tactic(auto, unfolding(crate::specs::Steps::publish_tape))]
fn publish_tape(session: &mut [u8], cut: bool, tape: usize)
    requires { Begun session.old × (tape < 8) }
    ensures { session.new ≡ publish_tape cut tape session.old }
{
    let view = published_view(session, cut, tape);
    session::put_view(session, Session::LIST, tape, view);
}

pub fn publish_all(session: &mut [u8], cut: bool)
    requires { Begun session.old }
    ensures { session.new ≡ publish_all cut session.old }
{
    for tape in 0..Session::MOST_TAPES {
        publish_tape(session, cut, tape);
    }
}

// ---- the record, and the session's own fields

// The record of a list that may be stored, in the file whose turn it is.
pub fn write_record(disk: &mut [u8], session: &[u8], list: TapeList)
    requires { (Sound disk.old × (session_bytes ≤ length session.now)) × ((storable list ≡ true) × ((head_of session.now).epoch + 1 < 2 ^ 64)) }
    ensures { disk.new ≡ recorded disk.old session.now list }
{
    let head = session::get_head(session);
    let mut record = [0u8; TapeList::MOST_RECORD_BYTES];
    let Ok(n) = metadata::encode_record(&mut record, head.epoch + 1, list) else {
        return;
    };
    disk::write_side(disk, head.side, &record[..n]);
}

fn other_side(side: Side) -> Side
    ensures { result ≡ other_side side }
{
    match side {
        Side::Left => Side::Right,
        Side::Right => Side::Left,
    }
}

// The next epoch, and the other file's turn.
#[tactic(auto, unfolding(crate::specs::Steps::advanced))]
pub fn advance(session: &mut [u8], cut: bool)
    requires { (session_bytes ≤ length session.old) × ((head_of session.old).epoch + 1 < 2 ^ 64) }
    ensures { session.new ≡ advanced cut session.old }
{
    let head = session::get_head(session);
    session::put_head(
        session,
        Head {
            epoch: head.epoch + 1,
            cut,
            side: other_side(head.side),
            ..head
        },
    );
}

// ---- marks and removal, of an append

#[tactic(auto, unfolding(crate::specs::Steps::ripen_tape, crate::specs::Steps::ripened_at))]
fn ripen_tape(disk: &mut [u8], session: &mut [u8], began: u64, oldest: u64, tape: usize)
    requires { (Sound disk.old × Begun session.old) × (tape < 8) }
    ensures { ripen_tape began oldest tape (areas disk.old session.old) ≡ areas disk.new session.new }
{
    if !is_touched(session, tape) {
        return;
    }
    let Some(place) = directory_of(disk, session, tape) else {
        return;
    };
    let handle = session::get_handle(session, tape);
    let view = session::get_view(session, Session::LIST, tape);
    let number = components::file_of(handle.file_size, view.start);
    let marks = Change::MarkBelow {
        number,
        epoch: began,
    };
    rolling_tape::retrack(disk, session, place, marks);
    rolling_tape::remove_ripe(disk, session, place, oldest);
}

pub fn ripen_all(disk: &mut [u8], session: &mut [u8], began: u64, oldest: u64)
    requires { Sound disk.old × Begun session.old }
    ensures { ripen_all began oldest (areas disk.old session.old) ≡ areas disk.new session.new }
{
    for tape in 0..Session::MOST_TAPES {
        ripen_tape(disk, session, began, oldest, tape);
    }
}

// ---- rings and marks, of a truncate

// The staged record goes first: the ring may hold fewer bytes than it says are unwritten.
#[tactic(auto, unfolding(crate::specs::Steps::cut_ring))]
fn cut_ring(session: &mut [u8], tape: usize)
    requires { (session_bytes ≤ length session.old) × (tape < 8) }
    ensures { session.new ≡ cut_ring tape session.old }
{
    let ring = session::get_ring(session, tape);
    let staged = session::get_staged(session, tape);
    session::put_staged(session, tape, Staged::untouched());
    session::put_ring(session, tape, ring.truncate(staged.len));
}

#[tactic(auto, unfolding(crate::specs::Steps::cut_tape))]
fn cut_tape(disk: &[u8], session: &mut [u8], tape: usize)
    requires { (Sound disk.now × Begun session.old) × (tape < 8) }
    ensures { session.new ≡ cut_tape disk.now tape session.old }
{
    if !is_touched(session, tape) {
        return;
    }
    let directory = directory_of(disk, session, tape);
    let handle = session::get_handle(session, tape);
    let staged = session::get_staged(session, tape);
    let first = components::file_of(handle.file_size, staged.len);
    cut_ring(session, tape);
    if let Some(place) = directory {
        rolling_tape::retrack(disk, session, place, Change::ClearFrom(first));
    }
}

pub fn cut_all(disk: &[u8], session: &mut [u8])
    requires { Sound disk.now × Begun session.old }
    ensures { session.new ≡ cut_all disk.now session.old }
{
    for tape in 0..Session::MOST_TAPES {
        cut_tape(disk, session, tape);
    }
}

// ---- the writer's place

// Nothing of a tape is staged any more.
#[tactic(auto, unfolding(crate::specs::Steps::unstage))]
pub fn unstage_tape(session: &mut [u8], tape: usize)
    requires { (session_bytes ≤ length session.old) × (tape < 8) }
    ensures { session.new ≡ unstage tape session.old }
{
    session::put_staged(session, tape, Staged::untouched());
}

pub fn close_writer(session: &mut [u8])
    requires { session_bytes ≤ length session.old }
    ensures { session.new ≡ close_writer session.old }
{
    for tape in 0..Session::MOST_TAPES {
        unstage_tape(session, tape);
    }
    session::put_transaction(session, Session::WRITER, Transaction::closed());
}
