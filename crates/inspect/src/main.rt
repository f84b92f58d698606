// What a metadata file says: reads one from standard input and prints its epoch and its tapes, or
// that nothing in it counts, or that its list can't be read. What stands behind the first 4,096 bytes
// is not read; no record is that long.
#![tactic(auto)]

ghost use Rattle.std.specs.Prelude.{◌≤◌, length, IfOk};

use metadata::{TapeList, TapeMetadata};
use std::io;
use std::io::Read;

fn print_tape(rt: &impl Print, t: &TapeMetadata) -> io::Result<()> {
    print!(rt; "tape ")?;
    if let Some(name) = t.name.get(..t.letters) {
        rt.write_all(name)?;
    }
    println!(rt; " len {} start {}", t.len, t.start)
}

fn print_list(rt: &impl Print, list: &TapeList) -> io::Result<()> {
    for t in list.tapes.iter().take(list.count) {
        print_tape(rt, t)?;
    }
    Ok(())
}

// The file's record, printed. It is read as the right file beside an empty left one, which is never
// picked.
fn inspect(rt: &impl Print, file: &[u8]) -> io::Result<()> {
    let record = metadata::pick(&file[..0], file);
    if record.is_empty() {
        return println!(rt; "no record");
    }
    println!(rt; "epoch {}", metadata::epoch_of(record))?;
    match metadata::list_of(record) {
        Some(list) => print_list(rt, &list),
        None => println!(rt; "the list can't be read"),
    }
}

// Reads until the space is full or the input ends, and answers how many bytes were put to its front.
fn read_full(from: &mut impl Read, space: &mut [u8]) -> io::Result<usize>
    ensures { IfOk result (λ n. n ≤ length space.new) }
{
    let mut done = 0;
    // Not a `for`: a read puts as many bytes as it likes, so no counter goes up by one.
    while done < space.len() {
        let n = from.read(&mut space[done..])?;
        if n == 0 {
            break;
        }
        done += n;
    }
    Ok(done)
}

fn main(rt: HostRuntime) -> io::Result<()> {
    let mut space = [0u8; 4096];
    let n = read_full(&mut rt.stdin(), &mut space)?;
    inspect(&rt, &space[..n])
}
