// Bounds in entries. The products are never formed before they are known to fit.
ghost use Rattle.std.specs.Prelude.{◌≡◌, ◌<◌};
ghost use Rattle.components.specs.Bounds.{up_to, in_bounds};

// Whether an index in entries is not past a length in bytes.
pub fn up_to(entry: u64, index: u64, len: u64) -> bool
    requires { 0 < entry }
    ensures { result ≡ up_to entry index len }
{
    index <= len / entry
}

// Whether `count` entries from an index on lie between a start and a length in bytes.
pub fn in_bounds(entry: u64, start: u64, len: u64, index: u64, count: u64) -> bool
    requires { 0 < entry }
    ensures { result ≡ in_bounds entry start len index count }
{
    if !up_to(entry, index, len) {
        return false;
    }
    let offset = index * entry;
    start <= offset && count <= (len - offset) / entry
}
