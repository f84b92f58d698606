// What is opened, and whether its name and sizes are in range.
ghost use Rattle.std.specs.Prelude.{◌≡◌, ◌<◌, ◌≤◌, length};
ghost use Rattle.opening.specs.Shape.{opening_of, in_range, is_whole, shape_of};

use answers::Refusal;
use layout::Session;
use session::View;

// A tape with the sizes that it is opened with.
#[derive(Clone, Copy, Debug, PartialEq, Eq)]
pub struct Opening {
    pub entry: u64,
    pub file_size: u64,
    pub cache: u64,
    // Whether the append's view has it; then its length and start are the view's, else the given start. No
    // `Option` of the two: they stand in both cases.
    pub listed: bool,
    pub len: u64,
    pub start: u64,
}

// The same with its name, behind `shape_of`.
#[derive(Clone, Copy)]
pub struct Shaped<'a> {
    pub name: &'a [u8],
    pub opening: Opening,
    ghost short: { length name.now ≤ 24 },
    ghost sizes: { ((0 < opening.file_size) × (opening.file_size ≤ 4096)) × (opening.cache ≤ 4096) },
}

#[tactic(auto, unfolding(crate::specs::Shape::opening_of))]
pub fn opening_of(view: View, entry: u64, file_size: u64, cache: u64, start: u64) -> Opening
    ensures { result ≡ opening_of view entry file_size cache start }
{
    let listed = view.listed;
    Opening {
        entry,
        file_size,
        cache,
        listed,
        len: if listed { view.len } else { start },
        start: if listed { view.start } else { start },
    }
}

fn in_range(n: u64, most: u64) -> bool
    ensures { result ≡ in_range n most }
{
    1 <= n && n <= most
}

// Whether length and start are multiples of the entry size.
fn is_whole(o: Opening) -> bool
    requires { 0 < o.entry }
    ensures { result ≡ is_whole o }
{
    o.len % o.entry == 0 && o.start % o.entry == 0
}

// Whether name and sizes are in range. Refused: 6, 8 (entry), 10, 8 (file), 7, 8 (cache).
#[tactic(auto, unfolding(crate::specs::Shape::shape_of))]
pub fn shape_of(name: &[u8], o: Opening) -> Result<(), Refusal>
    ensures { result ≡ shape_of name.now o }
{
    if !metadata::is_name(name) {
        return Err(Refusal::BadName);
    }
    if !in_range(o.entry, Session::MOST_ENTRY) {
        return Err(Refusal::BadSize);
    }
    if !is_whole(o) {
        return Err(Refusal::NotWhole);
    }
    if !in_range(o.file_size, Session::MOST_FILE) {
        return Err(Refusal::BadSize);
    }
    if octets::same_bytes(name, b"metadata") {
        return Err(Refusal::ReservedName);
    }
    if !in_range(o.cache, Session::RING_BYTES as u64) {
        return Err(Refusal::BadSize);
    }
    Ok(())
}
