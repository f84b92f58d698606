// Where everything stands in the two lent areas, and the rule that each of them keeps
// (`docs/LAYOUT.md` has the picture). Every call but `format`, which looks at sizes alone, checks the
// rules before it does anything else, so each is one cheap pass; any bytes of any length get a
// verdict.
//
// The rules are `sound` and `begun` of `specs/Disk.antt` and `specs/Session.antt`; beside each stands
// the same as facts, which is what the crates above ask for. A table of names stands in both areas
// and is written and searched here, once. Proved, and nothing is assumed.
#![tactic(auto)]

mod disk_area;
mod names;
mod session_area;

pub use disk_area::{Disk, disk_bytes, is_sound_disk};
pub use names::{find_name, has_name, name_at, put_name};
pub use session_area::{Session, is_begun_session, is_sound_session};
