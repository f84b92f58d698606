// An empty disk, made of any bytes.
ghost use Rattle.std.specs.Prelude.{◌≡◌, ◌≤◌, length};
ghost use Rattle.layout.specs.Disk.{data_at};
ghost use Rattle.disk.specs.Steps.{formatted};

use layout::Disk;

// Everything up to the slots is written; the slots' bytes are left, since no file has them.
pub fn format(disk: &mut [u8], slots: usize)
    requires { (slots ≤ 64) × (data_at slots ≤ length disk.old) }
    ensures { disk.new ≡ formatted disk.old slots }
{
    octets::fill_zero(disk, 0, Disk::DATA);
    octets::put_u64(disk, 0, Disk::MARK);
    octets::put_u64(disk, Disk::SLOT_COUNT, slots as u64);
}
