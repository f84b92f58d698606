// Numbers as text: decimal digits, any number of leading zeros when read, none when printed.
ghost use Rattle.std.specs.Prelude.{◌≡◌, ◌+◌, ◌≤◌, ◌<◌, length};
ghost use Rattle.lines.specs.Written.{Written};
ghost use Rattle.lines.specs.Numbers.{number_of, decimal_of};

// The number that s says, if it is one of at most 2^64-1.
pub fn parse_number(s: &[u8]) -> Option<u64>
    ensures { result ≡ number_of s.now }
{
    if s.is_empty() {
        return None;
    }
    let mut n: u64 = 0;
    for b in s {
        if !b.is_ascii_digit() {
            return None;
        }
        n = n.checked_mul(10)?.checked_add(u64::from(*b - b'0'))?;
    }
    Some(n)
}

// n in decimal, put into out from at on; the answer is the place behind it.
pub fn put_decimal(out: &mut [u8], at: usize, n: u64) -> usize
    requires { at + 20 ≤ length out.old }
    ensures { Written (decimal_of n) out.old at result out.new }
{
    if n < 10 {
        out[at] = b'0' + n as u8;
        return at + 1;
    }
    let end = put_decimal(out, at, n / 10);
    out[end] = b'0' + (n % 10) as u8;
    end + 1
}
