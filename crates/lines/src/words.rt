// The word that a line begins with.
#![tactic(auto, using(crate::proofs::Spelled::same_cases), unfolding(crate::specs::Words::word_of, crate::specs::Words::later_word))]

ghost use Rattle.std.specs.Prelude.{◌≡◌};
ghost use Rattle.lines.specs.Words.{word_of, later_word};

#[derive(Clone, Copy, Debug, PartialEq, Eq)]
pub enum Word {
    Format,
    Store,
    Append,
    Reader,
    Truncate,
    Open,
    Put,
    Shift,
    Cut,
    Read,
    Commit,
    Drop,
}

pub fn word_of(s: &[u8]) -> Option<Word>
    ensures { result ≡ word_of s.now }
{
    match s {
        b"format" => Some(Word::Format),
        b"store" => Some(Word::Store),
        b"append" => Some(Word::Append),
        b"reader" => Some(Word::Reader),
        b"truncate" => Some(Word::Truncate),
        b"open" => Some(Word::Open),
        b"put" => Some(Word::Put),
        b"shift" => Some(Word::Shift),
        b"cut" => Some(Word::Cut),
        b"read" => Some(Word::Read),
        b"commit" => Some(Word::Commit),
        b"drop" => Some(Word::Drop),
        _ => None,
    }
}
