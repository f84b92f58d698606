// The rule for names: 1 to 24 bytes from a-z, 0-9, `_` and `-`.
ghost use Rattle.std.specs.Prelude.{◌≡◌};
ghost use Rattle.metadata.specs.Name.{name_byte, name_rule};

use crate::list::TapeMetadata;

#[tactic(auto, unfolding(crate::specs::Name::name_byte))]
fn is_name_byte(b: u8) -> bool
    ensures { result ≡ name_byte b }
{
    matches!(b, b'a'..=b'z' | b'0'..=b'9' | b'_' | b'-')
}

#[tactic(auto, unfolding(crate::specs::Name::name_rule))]
pub fn is_name(s: &[u8]) -> bool
    ensures { result ≡ name_rule s.now }
{
    if s.is_empty() || TapeMetadata::MOST_LETTERS < s.len() {
        return false;
    }
    s.iter().all(|b| is_name_byte(*b))
}
