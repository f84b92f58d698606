// How much memory is to be lent.
ghost use Rattle.std.specs.Prelude.{◌≡◌, min};
ghost use Rattle.layout.specs.Disk.{data_at};
ghost use Rattle.layout.specs.Session.{session_bytes};

use layout::Session;

// The bytes of a disk with so many slots; of more than 64, those of 64.
#[unsafe(no_mangle)]
pub extern "C" fn tapes_disk_bytes(slots: u64) -> u64
    ensures { result ≡ data_at (min slots 64) }
{
    let most = (slots as usize).min(64);
    layout::disk_bytes(most) as u64
}

// The bytes of a session.
#[unsafe(no_mangle)]
pub extern "C" fn tapes_session_bytes() -> u64
    ensures { result ≡ session_bytes }
{
    Session::BYTES as u64
}
