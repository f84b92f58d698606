// The disk: directories, numbered files and the two metadata files left and right, in a lent area
// (`docs/LAYOUT.md`). Nobody above this crate computes an offset in it.
//
// `specs/Steps.antt` says what each function answers and what the area then holds, byte by byte;
// `specs/Meaning.antt` says what a disk's bytes mean, and `specs/MeaningLaws.antt` what each write
// does to that; `specs/SoundLaws.antt`: a sound area stays sound. The functions are called on areas that keep the layout rule
// (`layout::is_sound_disk`); `format` makes one of any bytes. Proved, and nothing is assumed.
#![tactic(auto)]

mod directories;
mod files;
mod formatting;
mod search;
mod sides;

pub use directories::{add_directory, directory_name, empty_directory, find_directory};
pub use files::{Entry, file_part, get_entry, make_file, remove_file, slot_count, write_at};
pub use formatting::format;
pub use search::{count_files, find_file, find_in};
pub use sides::{side_part, write_side};
