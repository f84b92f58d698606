// Published BLAKE2b vectors, run: RFC 7693 appendix A, its self-test of appendix E, and digests of
// 32 bytes around the ends of a block and at the longest record. The file `stdout` beside this has
// what they must be: the RFC's own two values, and the rest from Python's hashlib.
#![tactic(auto)]

ghost use Rattle.std.specs.Prelude.{◌≡◌, ◌*◌, ◌≤◌, length, IfOk};

use std::io;

// Appendix E's lengths of digests and of messages.
const DIGESTS: [usize; 4] = [20, 32, 48, 64];

const MESSAGES: [usize; 6] = [0, 3, 128, 129, 255, 1024];

// Appendix E's selftest_seq: a sequence of bytes from a seed, by Fibonacci's rule modulo 2^32. A
// shorter sequence begins a longer one.
fn sequence(seed: u32) -> [u8; 1024] {
    let mut a = 0xDEAD_4BADu32.wrapping_mul(seed);
    let mut b = 1u32;
    let mut out = [0u8; 1024];
    for byte in &mut out {
        let t = a.wrapping_add(b);
        a = b;
        b = t;
        *byte = (t >> 24) as u8;
    }
    out
}

// A digest in hex and a line's end.
fn print_digest(rt: &impl Print, digest: &[u8]) -> io::Result<()> {
    for byte in digest {
        print!(rt; "{byte:02x}")?;
    }
    println!(rt)
}

// Hashes, and prints what it was and the digest; a refusal prints itself.
fn show(rt: &impl Print, digest: &mut [u8], key: &[u8], message: &[u8]) -> io::Result<()> {
    let nn = digest.len();
    print!(rt; "{nn} {} {} ", key.len(), message.len())?;
    match blake2b::blake2b(digest, nn, key, message) {
        Ok(()) => print_digest(rt, digest),
        Err(_) => println!(rt; "refused"),
    }
}

// Two digests of nn bytes of one message of appendix E, unkeyed and keyed, to the front of digests.
// Answers how many bytes they are.
fn one_message(rt: &impl Print, digests: &mut [u8], nn: usize, n: usize) -> io::Result<usize>
    requires room { 2 * nn ≤ length digests.old }
    requires digest { nn ≤ 64 }
    requires message { n ≤ 1024 }
    ensures { IfOk result (λ done. done ≡ 2 * nn) }
{
    let input = sequence(n as u32);
    let key = sequence(nn as u32);
    let (plain, rest) = digests.split_at_mut(nn);
    show(rt, plain, b"", &input[..n])?;
    show(rt, &mut rest[..nn], &key[..nn], &input[..n])?;
    Ok(2 * nn)
}

// The digests of one length, in appendix E's order of messages, to the front of digests. Answers how
// many bytes they are.
fn one_length(rt: &impl Print, digests: &mut [u8], nn: usize) -> io::Result<usize>
    requires room { 12 * nn ≤ length digests.old }
    requires digest { nn ≤ 64 }
    ensures { IfOk result (λ done. done ≡ 12 * nn) }
{
    let mut done = 0;
    for n in MESSAGES {
        done += one_message(rt, &mut digests[done..], nn, n)?;
    }
    Ok(done)
}

fn appendix_e(rt: &impl Print) -> io::Result<()> {
    let mut all = [0u8; 1968];
    let mut done = 0;
    for nn in DIGESTS {
        done += one_length(rt, &mut all[done..], nn)?;
    }
    let mut grand = [0u8; 32];
    print!(rt; "the hash of these hashes: ")?;
    show(rt, &mut grand, b"", &all)
}

// The digests of 32 bytes of the beginnings of one sequence, around the ends of a block.
fn around_blocks(rt: &impl Print) -> io::Result<()> {
    for n in [0, 1, 127, 128, 129, 255, 256, 374, 1024] {
        let input = sequence(n as u32);
        let mut digest = [0u8; 32];
        show(rt, &mut digest, b"", &input[..n])?;
    }
    Ok(())
}

fn main(rt: HostRuntime) -> io::Result<()> {
    let mut digest = [0u8; 64];
    println!(rt; "appendix A")?;
    show(&rt, &mut digest, b"", b"abc")?;
    println!(rt; "appendix E")?;
    appendix_e(&rt)?;
    println!(rt; "around blocks")?;
    around_blocks(&rt)
}
