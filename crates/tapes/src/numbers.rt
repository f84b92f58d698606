// An answer in numbers.
ghost use Rattle.std.specs.Prelude.{◌≡◌};
ghost use Rattle.tapes.specs.Numbers.{numbers, entry_numbers};

use answers::Refusal;

// 0 and the value, or the refusal's number and 0; an append that waits has the number of readers.
#[derive(Clone, Copy, Debug, PartialEq, Eq)]
#[repr(C)]
pub struct Reply {
    pub code: u64,
    pub value: u64,
}

impl From<Result<u64, Refusal>> for Reply {
    ghost from_gives = { λ answer reply. reply ≡ numbers answer };

    fn from(answer: Result<u64, Refusal>) -> Reply {
        Reply {
            code: answers::code(answer),
            value: answers::value(answer),
        }
    }
}

// Of one entry: its index, and 2^64-1 where there is none.
impl From<Result<Option<u64>, Refusal>> for Reply {
    ghost from_gives = { λ answer reply. reply ≡ entry_numbers answer };

    fn from(answer: Result<Option<u64>, Refusal>) -> Reply {
        Reply {
            code: answers::entry_code(answer),
            value: answers::entry_value(answer),
        }
    }
}
