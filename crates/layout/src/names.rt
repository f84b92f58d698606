// A table of eight names: a word that says how many bytes the name has, and room for 24. A place
// whose name is empty is free.
ghost use Rattle.std.specs.Prelude.{◌≡◌, ◌+◌, ◌≤◌, ◌<◌, length};
ghost use Rattle.octets.specs.First.{all};
ghost use Rattle.octets.specs.Compare.{same_bytes};
ghost use Rattle.layout.specs.Names.{NamesFit, name_fits, name, find_name, put_name};

// How many bytes a place takes, and how many its name may have.
const PLACE_BYTES: usize = 32;

const MOST_LETTERS: usize = 24;

const MOST_NAMES: usize = 8;

// Whether no name of the table that begins at base is too long.
pub fn names_fit(area: &[u8], base: usize) -> bool
    requires { base + 256 ≤ length area.now }
    ensures { result ≡ all (name_fits area.now base) 8 0 }
{
    octets::all(0, MOST_NAMES, |place| {
        octets::u64_at(area, base + place * PLACE_BYTES) as usize <= MOST_LETTERS
    })
}

// The name at a place, as a part of the area.
#[tactic(auto, unfolding(crate::specs::Names::name))]
pub fn name_at<'a>(area: &'a [u8], base: usize, place: usize) -> &'a [u8]
    requires { NamesFit area.now base × (place < 8) }
    ensures { result.now ≡ name area.now base place }
{
    let at = base + place * PLACE_BYTES;
    let letters = octets::u64_at(area, at) as usize;
    let from = at + 8;
    &area[from..from + letters]
}

// Whether a place has this name.
pub fn has_name(area: &[u8], base: usize, place: usize, wanted: &[u8]) -> bool
    requires { NamesFit area.now base × (place < 8) }
    ensures { result ≡ same_bytes (name area.now base place) wanted.now }
{
    octets::same_bytes(name_at(area, base, place), wanted)
}

// The first place that has this name; of the empty name, the first free place.
#[tactic(auto, unfolding(crate::specs::Names::find_name))]
pub fn find_name(area: &[u8], base: usize, wanted: &[u8]) -> Option<usize>
    requires { NamesFit area.now base }
    ensures { result ≡ find_name area.now base wanted.now }
{
    octets::first(0, MOST_NAMES, |place| has_name(area, base, place, wanted))
}

// A name written to a place; what stood there behind it stays.
#[tactic(auto, unfolding(crate::specs::Names::put_name))]
pub fn put_name(area: &mut [u8], base: usize, place: usize, wanted: &[u8])
    requires { ((base + 256 ≤ length area.old) × (place < 8)) × (length wanted.now ≤ 24) }
    ensures { area.new ≡ put_name area.old base place wanted.now }
{
    let at = base + place * PLACE_BYTES;
    octets::put_u64(area, at, wanted.len() as u64);
    octets::copy_in(area, at + 8, wanted);
}
