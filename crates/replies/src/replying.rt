// The reply to a line.
#![tactic(auto, using(crate::proofs::Texts::texts), unfolding(crate::specs::Replies::reads, crate::specs::Replies::reply_to))]

ghost use Rattle.std.specs.Prelude.{◌≡◌, [], ◌≤◌, length};
ghost use Rattle.answers.specs.Answers.{code_of, value_of};
ghost use Rattle.lines.specs.Reply.{reply_of};
ghost use Rattle.lines.specs.Written.{Written};
ghost use Rattle.replies.specs.Replies.{reads, reply_to, Happened};

use crate::calls::make;
use crate::reads::entry_of;
use answers::Refusal;
use lines::Call;

fn reply_with(answer: Result<u64, Refusal>, number: u64, out: &mut [u8]) -> usize
    requires { 65 ≤ length out.old }
    ensures { Written (reply_of number (code_of answer) (value_of answer) []) out.old 0 result out.new }
{
    lines::put_reply(
        out,
        number,
        answers::code(answer),
        answers::value(answer),
        b"",
    )
}

// A read. One that is too long is unreadable, and nothing is asked of the store; the bytes of another
// are read into `space`, and shown if the read was served.
fn reply_read(
    disk: &[u8],
    session: &[u8],
    transaction: u64,
    handle: u64,
    offset: u64,
    count: u64,
    number: u64,
    space: &mut [u8],
    out: &mut [u8],
) -> usize
    requires { (4096 ≤ length space.old) × (8260 ≤ length out.old) }
    ensures { (space.new ≡ (reads disk.now session.now number space.old transaction handle offset count).space) × Written (reads disk.now session.now number space.old transaction handle offset count).text out.old 0 result out.new }
{
    let entry = entry_of(session, handle);
    if lines::is_long_read(entry, count) {
        return lines::put_unreadable_reply(out, number);
    }
    let answer = entries::read_entries(disk, session, transaction, handle, offset, count, space);
    match answer {
        Ok(n) => {
            let wanted = (count * entry) as usize;
            lines::put_reply(out, number, 0, n, &space[..wanted])
        }
        Err(_) => reply_with(answer, number, out),
    }
}

// Makes the call that a line asks for, puts the reply to the front of `out`, and answers its length.
// `space` is where a put's bytes, or those that were read, are kept meanwhile.
pub fn reply(
    disk: &mut [u8],
    session: &mut [u8],
    number: u64,
    line: &[u8],
    space: &mut [u8],
    out: &mut [u8],
) -> usize
    requires { (4250 ≤ length space.old) × (8260 ≤ length out.old) }
    ensures { Happened (reply_to disk.old session.old number line.now space.old) disk.new session.new space.new out.old result out.new }
{
    let Some(call) = lines::parse_line(line) else {
        return lines::put_unreadable_reply(out, number);
    };
    match call {
        Call::Read {
            transaction,
            handle,
            offset,
            count,
        } => reply_read(
            disk,
            session,
            transaction,
            handle,
            offset,
            count,
            number,
            space,
            out,
        ),
        _ => {
            let answer = make(disk, session, line, Some(call), space);
            reply_with(answer, number, out)
        }
    }
}
