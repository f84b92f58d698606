// The metadata files left and right.
ghost use Rattle.std.specs.Prelude.{◌≡◌, ◌≤◌, ◌<◌, length};
ghost use Rattle.layout.specs.Disk.{Sound};
ghost use Rattle.disk.specs.Steps.{side_at, side_len_at, side_bytes, write_side};

use layout::Disk;
use metadata::Side;

// Where a side's bytes stand.
fn side_at(side: Side) -> usize
    ensures { result ≡ side_at side }
{
    match side {
        Side::Left => Disk::LEFT,
        Side::Right => Disk::RIGHT,
    }
}

// Where a side's length stands. Beside `side_at`, as the area has them: a pair of both would be taken
// apart at each use.
fn side_len_at(side: Side) -> usize
    ensures { result ≡ side_len_at side }
{
    match side {
        Side::Left => Disk::LEFT_LEN,
        Side::Right => Disk::RIGHT_LEN,
    }
}

// The bytes of one of them, as a part of the area.
#[tactic(auto, unfolding(crate::specs::Steps::side_bytes))]
pub fn side_part<'a>(disk: &'a [u8], side: Side) -> &'a [u8]
    requires { Sound disk.now }
    ensures { result.now ≡ side_bytes disk.now side }
{
    let at = side_at(side);
    let len = octets::u64_at(disk, side_len_at(side)) as usize;
    &disk[at..at + len]
}

// Writes one of them from its first byte on; it never gets shorter.
#[tactic(auto, unfolding(crate::specs::Steps::write_side))]
pub fn write_side(disk: &mut [u8], side: Side, src: &[u8])
    requires { Sound disk.old × (length src.now ≤ 512) }
    ensures { disk.new ≡ write_side disk.old side src.now }
{
    let len_at = side_len_at(side);
    let old = octets::u64_at(disk, len_at) as usize;
    octets::copy_in(disk, side_at(side), src);
    let end = old.max(src.len());
    octets::put_u64(disk, len_at, end as u64);
}
