// The files that a run of bytes lies in. No sum passes 2^64, also at the offset 2^64-1.
ghost use Rattle.std.specs.Prelude.{◌≡◌, ◌<◌};
ghost use Rattle.components.specs.Slots.{covered};

// How many files the bytes from a base up to an end lie in.
pub fn files_covered(file_size: u64, base: u64, end: u64) -> u64
    requires { 0 < file_size }
    ensures { result ≡ covered file_size base end }
{
    if end <= base {
        return 0;
    }
    (end - 1) / file_size - base / file_size + 1
}
