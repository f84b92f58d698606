// What a line says: which call, and its numbers. The name of an open is the line's field 2 and the hex
// of a put its field 3; whoever makes the call takes them from the line.
#![tactic(auto, unfolding(crate::specs::Calls::by_word, crate::specs::Calls::call_of))]

ghost use Rattle.std.specs.Prelude.{◌≡◌, [], ◌*◌, ltb, get_or};
ghost use Rattle.lines.specs.Numbers.{number_of};
ghost use Rattle.lines.specs.Fields.{fields};
ghost use Rattle.lines.specs.Calls.{exactly, by_word, call_of};

use crate::hexadecimal::is_hex;
use crate::number::parse_number;
use crate::parts::{field, field_count};
use crate::words::{Word, word_of};

#[derive(Clone, Copy, Debug, PartialEq, Eq)]
pub enum Call {
    Format,
    Store,
    Append,
    Reader,
    Truncate,
    Open {
        transaction: u64,
        entry: u64,
        file: u64,
        cache: u64,
        start: u64,
    },
    Put {
        transaction: u64,
        handle: u64,
    },
    Shift {
        transaction: u64,
        handle: u64,
        start: u64,
    },
    Cut {
        transaction: u64,
        handle: u64,
        len: u64,
    },
    Read {
        transaction: u64,
        handle: u64,
        offset: u64,
        count: u64,
    },
    Commit {
        transaction: u64,
    },
    Drop {
        transaction: u64,
    },
}

const MOST_BYTES: usize = 8500;

const MOST_READ: u64 = 4096;

fn number_at(line: &[u8], k: usize) -> Option<u64>
    ensures { result ≡ number_of (get_or (fields line.now) k []) }
{
    parse_number(field(line, k))
}

// A call that is its word alone.
fn bare(line: &[u8], call: Call) -> Option<Call>
    ensures { result ≡ exactly 1 (fields line.now) (Some call) }
{
    if field_count(line) != 1 {
        return None;
    }
    Some(call)
}

fn parse_open(line: &[u8]) -> Option<Call>
    ensures { result ≡ by_word (Some Word.Open) (fields line.now) }
{
    if field_count(line) != 7 {
        return None;
    }
    let transaction = number_at(line, 1)?;
    let entry = number_at(line, 3)?;
    let file = number_at(line, 4)?;
    let cache = number_at(line, 5)?;
    let start = number_at(line, 6)?;
    Some(Call::Open {
        transaction,
        entry,
        file,
        cache,
        start,
    })
}

fn parse_put(line: &[u8]) -> Option<Call>
    ensures { result ≡ by_word (Some Word.Put) (fields line.now) }
{
    if field_count(line) != 4 {
        return None;
    }
    let transaction = number_at(line, 1)?;
    let handle = number_at(line, 2)?;
    if !is_hex(field(line, 3)) {
        return None;
    }
    Some(Call::Put {
        transaction,
        handle,
    })
}

fn parse_shift(line: &[u8]) -> Option<Call>
    ensures { result ≡ by_word (Some Word.Shift) (fields line.now) }
{
    if field_count(line) != 4 {
        return None;
    }
    let transaction = number_at(line, 1)?;
    let handle = number_at(line, 2)?;
    let start = number_at(line, 3)?;
    Some(Call::Shift {
        transaction,
        handle,
        start,
    })
}

// Beside `parse_shift`: its numbers are the call's fields by name, which is all that it has.
fn parse_cut(line: &[u8]) -> Option<Call>
    ensures { result ≡ by_word (Some Word.Cut) (fields line.now) }
{
    if field_count(line) != 4 {
        return None;
    }
    let transaction = number_at(line, 1)?;
    let handle = number_at(line, 2)?;
    let len = number_at(line, 3)?;
    Some(Call::Cut {
        transaction,
        handle,
        len,
    })
}

fn parse_read(line: &[u8]) -> Option<Call>
    ensures { result ≡ by_word (Some Word.Read) (fields line.now) }
{
    if field_count(line) != 5 {
        return None;
    }
    let transaction = number_at(line, 1)?;
    let handle = number_at(line, 2)?;
    let offset = number_at(line, 3)?;
    let count = number_at(line, 4)?;
    Some(Call::Read {
        transaction,
        handle,
        offset,
        count,
    })
}

fn parse_commit(line: &[u8]) -> Option<Call>
    ensures { result ≡ by_word (Some Word.Commit) (fields line.now) }
{
    if field_count(line) != 2 {
        return None;
    }
    let transaction = number_at(line, 1)?;
    Some(Call::Commit { transaction })
}

// Beside `parse_commit`, for the same reason.
fn parse_drop(line: &[u8]) -> Option<Call>
    ensures { result ≡ by_word (Some Word.Drop) (fields line.now) }
{
    if field_count(line) != 2 {
        return None;
    }
    let transaction = number_at(line, 1)?;
    Some(Call::Drop { transaction })
}

// What a line says, its end not counted among its bytes. `None` is a line that can't be read.
pub fn parse_line(line: &[u8]) -> Option<Call>
    ensures { result ≡ call_of line.now }
{
    if MOST_BYTES < line.len() {
        return None;
    }
    let word = word_of(field(line, 0))?;
    match word {
        Word::Format => bare(line, Call::Format),
        Word::Store => bare(line, Call::Store),
        Word::Append => bare(line, Call::Append),
        Word::Reader => bare(line, Call::Reader),
        Word::Truncate => bare(line, Call::Truncate),
        Word::Open => parse_open(line),
        Word::Put => parse_put(line),
        Word::Shift => parse_shift(line),
        Word::Cut => parse_cut(line),
        Word::Read => parse_read(line),
        Word::Commit => parse_commit(line),
        Word::Drop => parse_drop(line),
    }
}

// Whether so many entries of a size are more bytes than a read may ask for.
pub fn is_long_read(entry: u64, count: u64) -> bool
    ensures { result ≡ ltb 4096 (count * entry) }
{
    count
        .checked_mul(entry)
        .is_none_or(|bytes| MOST_READ < bytes)
}
