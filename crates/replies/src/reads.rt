// The read that a line asks for.
#![tactic(auto, unfolding(crate::specs::Replies::entry_for))]

ghost use Rattle.std.specs.Prelude.{◌≡◌};
ghost use Rattle.replies.specs.Replies.{entry_for};

// The entry size that a read's bytes are counted with: 1 where there is no such handle.
pub fn entry_of(session: &[u8], handle: u64) -> u64
    ensures { result ≡ entry_for session.now handle }
{
    if !layout::is_begun_session(session) {
        return 1;
    }
    match session::find_handle(session, handle) {
        Some(tape) => session::get_handle(session, tape).entry,
        None => 1,
    }
}
