// The fields of a line, parted by tabs. A line has at least one, and a tab at its end opens an empty one.
ghost use Rattle.std.specs.Prelude.{◌≡◌, [], length, get_or};
ghost use Rattle.lines.specs.Fields.{fields};

pub fn field_count(line: &[u8]) -> usize
    ensures { result ≡ length (fields line.now) }
{
    line.split(|b| *b == b'\t').count()
}

// Field k, counted from 0; empty where there is none.
pub fn field(line: &[u8], k: usize) -> &[u8]
    ensures { result.now ≡ get_or (fields line.now) k [] }
{
    line.split(|b| *b == b'\t').nth(k).unwrap_or(b"")
}
