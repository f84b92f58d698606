// Bytes as text: two digits of 0-9 and a-f a byte. An upper-case digit is none.
#![tactic(auto, unfolding(crate::specs::Hex::is_hex_digit, crate::specs::Hex::hex_value, crate::specs::Hex::hex_digit))]

ghost use Rattle.std.specs.Prelude.{◌≡◌, ◌+◌, ◌*◌, ◌/◌, ◌≤◌, ◌<◌, length};
ghost use Rattle.octets.specs.Bytes.{put};
ghost use Rattle.lines.specs.Written.{Written};
ghost use Rattle.lines.specs.Hex.{is_hex_digit, hex_value, hex_digit, is_hex, hex_bytes, hex_of};

fn is_hex_digit(b: u8) -> bool
    ensures { result ≡ is_hex_digit b }
{
    matches!(b, b'0'..=b'9' | b'a'..=b'f')
}

// What a digit counts; 0 for any other byte.
fn hex_value(b: u8) -> u8
    ensures { (result ≡ hex_value b) × (result < 16) }
{
    match b {
        b'0'..=b'9' => b - b'0',
        b'a'..=b'f' => b - b'a' + 10,
        _ => 0,
    }
}

fn hex_digit(d: u8) -> u8
    requires { d < 16 }
    ensures { result ≡ hex_digit d }
{
    if d < 10 {
        return b'0' + d;
    }
    b'a' + (d - 10)
}

// Whether s is the hex of some bytes; of none, where it is empty.
pub fn is_hex(s: &[u8]) -> bool
    ensures { result ≡ is_hex s.now }
{
    s.len() % 2 == 0 && s.iter().all(|b| is_hex_digit(*b))
}

// The bytes that s is the hex of, put at the front of out. What is no digit counts 0, and a byte over
// is left.
pub fn put_bytes(out: &mut [u8], s: &[u8])
    requires { length s.now / 2 ≤ length out.old }
    ensures { out.new ≡ put out.old 0 (hex_bytes s.now) }
{
    for (i, pair) in s.chunks_exact(2).enumerate() {
        out[i] = hex_value(pair[0]) * 16 + hex_value(pair[1]);
    }
}

// The hex of some bytes, put into out from at on; the answer is the place behind it.
pub fn put_hex(out: &mut [u8], at: usize, bytes: &[u8]) -> usize
    requires { at + length bytes.now * 2 ≤ length out.old }
    ensures { Written (hex_of bytes.now) out.old at result out.new }
{
    for (i, b) in bytes.iter().enumerate() {
        out[at + i * 2] = hex_digit(*b / 16);
        out[at + i * 2 + 1] = hex_digit(*b % 16);
    }
    at + bytes.len() * 2
}
