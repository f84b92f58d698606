// What a call answers is a `Result<u64, Refusal>`: a value, or the reason of its refusal; of one entry a
// `Result<Option<u64>, Refusal>`: its index, or that there is none. Document 01's table of refusal numbers
// stands in `specs/Answers.antt`; the functions give its numbers to whoever talks in numbers. Proved,
// and nothing is assumed.
#![tactic(auto)]

ghost use Rattle.std.specs.Prelude.{◌≡◌};
ghost use Rattle.answers.specs.Answers.{refusal_number, refusal_value, code_of, value_of, entry_code_of, entry_value_of};

// The reasons, in the order of their numbers.
#[derive(Clone, Copy, Debug, PartialEq, Eq)]
pub enum Refusal {
    // 1: an area is too small or breaks its layout rule, or no session was begun.
    Unusable,
    // 2: no open transaction of that number and kind, or no such handle.
    Unknown,
    // 3: an append or truncate is asked for while either is open.
    WriterOpen,
    // 4: an append waits for so many readers that began before the last cut.
    Wait(u64),
    // 5: a 17th reader, or a 9th name.
    Full,
    // 6: a name outside the rule.
    BadName,
    // 7: the name is `metadata`.
    ReservedName,
    // 8: a file, cache or entry size, or a slot count, outside its range.
    BadSize,
    // 9: the tape is already open in this session.
    AlreadyOpen,
    // 10: no multiple of the entry size, or a buffer shorter than its entries.
    NotWhole,
    // 11: the tape is absent from this transaction's view.
    Absent,
    // 12: a read out of bounds.
    OutOfBounds,
    // 13: a new start past the length.
    StartPastLength,
    // 14: a truncation to a longer length.
    LongerCut,
    // 15: no file slot.
    NoSlot,
    // 16: a directory or a file is missing, untracked or too short.
    Missing,
    // 17: the chosen record's tape list doesn't decode.
    BadList,
    // 18: an epoch, serial or length would pass 2^64-1.
    TooLarge,
}

// The numbers stay numbers here and below: C and the driver say them (document 01, "Refusal numbers").
fn refusal_number(why: Refusal) -> u64
    ensures { result ≡ refusal_number why }
{
    match why {
        Refusal::Unusable => 1,
        Refusal::Unknown => 2,
        Refusal::WriterOpen => 3,
        Refusal::Wait(_) => 4,
        Refusal::Full => 5,
        Refusal::BadName => 6,
        Refusal::ReservedName => 7,
        Refusal::BadSize => 8,
        Refusal::AlreadyOpen => 9,
        Refusal::NotWhole => 10,
        Refusal::Absent => 11,
        Refusal::OutOfBounds => 12,
        Refusal::StartPastLength => 13,
        Refusal::LongerCut => 14,
        Refusal::NoSlot => 15,
        Refusal::Missing => 16,
        Refusal::BadList => 17,
        Refusal::TooLarge => 18,
    }
}

// The number of readers that an append waits for; 0 of every other refusal.
fn refusal_value(why: Refusal) -> u64
    ensures { result ≡ refusal_value why }
{
    match why {
        Refusal::Wait(readers) => readers,
        _ => 0,
    }
}

// The refusal's number; 0 where the call was served.
pub fn code(answer: Result<u64, Refusal>) -> u64
    ensures { result ≡ code_of answer }
{
    match answer {
        Ok(_) => 0,
        Err(why) => refusal_number(why),
    }
}

// What a served call gives; of a refused one 0, but for an append that waits the number of readers.
pub fn value(answer: Result<u64, Refusal>) -> u64
    ensures { result ≡ value_of answer }
{
    match answer {
        Ok(given) => given,
        Err(why) => refusal_value(why),
    }
}

// The same of a call for one entry: 0 where there is an entry, and where there is none. Beside `code` and
// not one generic with it: `code_of` and `entry_code_of` are two definitions, and the values differ.
pub fn entry_code(answer: Result<Option<u64>, Refusal>) -> u64
    ensures { result ≡ entry_code_of answer }
{
    match answer {
        Ok(_) => 0,
        Err(why) => refusal_number(why),
    }
}

// The entry's index; where there is none 2^64-1, which no entry has.
pub fn entry_value(answer: Result<Option<u64>, Refusal>) -> u64
    ensures { result ≡ entry_value_of answer }
{
    match answer {
        Ok(Some(index)) => index,
        Ok(None) => u64::MAX,
        Err(why) => refusal_value(why),
    }
}
