// The reply to a line, put at the front of a buffer. Each function answers how many bytes it is.
// `out` and `at` stay two parameters: `put_decimal` and `put_hex` are public, and promise by the two.
#![tactic(auto, using(crate::proofs::Lengths::lengths))]

ghost use Rattle.std.specs.Prelude.{◌+◌, ◌*◌, ◌≤◌, length};
ghost use Rattle.lines.specs.Written.{Written};
ghost use Rattle.lines.specs.Reply.{tabbed, bytes_text, reply_of, unreadable_reply};

use crate::hexadecimal::put_hex;
use crate::number::put_decimal;

fn put_tabbed(out: &mut [u8], at: usize, n: u64) -> usize
    requires { at + 21 ≤ length out.old }
    ensures { Written (tabbed n) out.old at result out.new }
{
    let end = put_decimal(out, at, n);
    out[end] = b'\t';
    end + 1
}

fn put_bytes_text(out: &mut [u8], at: usize, bytes: &[u8]) -> usize
    requires { at + 1 + length bytes.now * 2 ≤ length out.old }
    ensures { Written (bytes_text bytes.now) out.old at result out.new }
{
    if bytes.is_empty() {
        out[at] = b'-';
        return at + 1;
    }
    put_hex(out, at, bytes)
}

// Three numbers with their tabs are at most 63 bytes, and the line's end is one.
pub fn put_reply(out: &mut [u8], number: u64, code: u64, value: u64, bytes: &[u8]) -> usize
    requires { 65 + length bytes.now * 2 ≤ length out.old }
    ensures { Written (reply_of number code value bytes.now) out.old 0 result out.new }
{
    let after_number = put_tabbed(out, 0, number);
    let after_code = put_tabbed(out, after_number, code);
    let after_value = put_tabbed(out, after_code, value);
    let end = put_bytes_text(out, after_value, bytes);
    out[end] = b'\n';
    end + 1
}

pub fn put_unreadable_reply(out: &mut [u8], number: u64) -> usize
    requires { 27 ≤ length out.old }
    ensures { Written (unreadable_reply number) out.old 0 result out.new }
{
    let end = put_tabbed(out, 0, number);
    octets::copy_in(out, end, b"-\t-\t-\n");
    end + 6
}
