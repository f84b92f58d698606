// The driver: a reply for each line of standard input. What the reply to a line is, `replies` proves,
// and here every function is proved safe and to end. No contract can say what is read or printed, so
// the program is run on `stdin`, and must print `stdout`.
//
// Memory is fixed, but for the writer's buffer, which is made once. The disk has 8 slots, so 35,616
// bytes, and a session 38,728. A line is kept up to its 8,500th byte, and of a longer one only that it
// is too long. The replies to the lines that end in one read go out before the next read.
#![tactic(auto)]

ghost use Rattle.std.specs.Prelude.{◌≤◌};

use std::io;
use std::io::{BufWriter, Read, Write};

#[derive(Drop)]
struct Driver<W> {
    to: W,
    disk: [u8; 35616],
    session: [u8; 38728],

    // The lines so far.
    number: u64,

    // The bytes of the line that is being read; 8,501 where there are more than 8,500.
    len: usize,
    line: [u8; 8501],
    space: [u8; 4250],
    out: [u8; 8260],
    ghost inside: { len ≤ 8501 },
}

impl<W: Write> Driver<W> {
    fn new(to: W) -> Driver<W> {
        Driver {
            to,
            disk: [0; 35616],
            session: [0; 38728],
            number: 0,
            len: 0,
            line: [0; 8501],
            space: [0; 4250],
            out: [0; 8260],
        }
    }

    // The line is read: its call is made, and the next line begins. How long the reply in `out` is.
    fn answer(&mut self) -> usize
        ensures { result ≤ 8260 }
    {
        self.number = self.number.wrapping_add(1);
        let n = replies::reply(
            &mut self.disk,
            &mut self.session,
            self.number,
            &self.line[..self.len],
            &mut self.space,
            &mut self.out,
        );
        self.len = 0;
        n
    }

    // One byte of a line. Of a line that is too long already, nothing more is kept.
    fn keep(&mut self, byte: u8) {
        if self.len < self.line.len() {
            self.line[self.len] = byte;
            self.len += 1;
        }
    }

    // One read of the input, and the replies to the lines that end in it. Whether there were bytes.
    // The line's end is told apart here: where each byte of a line came back with a `Result`, long lines
    // took half as much time again.
    fn read_some(&mut self, from: &mut impl Read) -> io::Result<bool> {
        let mut chunk = [0u8; 4096];
        let n = from.read(&mut chunk)?;
        for byte in &chunk[..n] {
            if *byte == b'\n' {
                let n = self.answer();
                self.to.write_all(&self.out[..n])?;
            } else {
                self.keep(*byte);
            }
        }
        self.to.flush()?;
        Ok(0 < n)
    }

    // A proved loop has to end, and nothing says that the input does. So the turns are counted, up to a
    // number that no run reaches.
    fn read_all(&mut self, from: &mut impl Read) -> io::Result<()> {
        for _ in 0..u64::MAX {
            if !self.read_some(from)? {
                return Ok(());
            }
        }
        Ok(())
    }

    // The last line may have no line's end.
    fn finish(&mut self) -> io::Result<()> {
        if 0 < self.len {
            let n = self.answer();
            self.to.write_all(&self.out[..n])?;
        }
        self.to.flush()
    }
}

fn main(rt: HostRuntime) -> io::Result<()> {
    let mut driver = Driver::new(BufWriter::new(rt.alloc(), rt.stdout())?);
    driver.read_all(&mut rt.stdin())?;
    driver.finish()
}
