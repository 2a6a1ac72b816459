// Replays cases: prints our own answer to each, in the form in which oracle/answers prints the Rust's. The
// gate holds the answers to the stored cases to be the same. A case is a letter, a length (16 bits,
// big-endian) and so many bytes, at most 4,096; oracle/answers/src says what each letter asks. A case that is
// not known, too long or cut short is answered by a line that says so.
#![tactic(auto)]

mod answers;
mod cases;
mod commands;
mod masks;
mod output;
mod readers;
mod reads;
mod replies;
mod streams;
mod thin;
mod unpackers;
mod writes;

ghost use Rattle.std.specs.Prelude.{◌≤◌, length};

use answers::Answers;
use arrayvec::ArrayVec;
use output::Output;
use std::io;
use std::io::{Read, Write};

// The longest case, and so the longest stream.
const MOST: usize = 4096;

fn answer(answers: &mut Answers, letter: u8, case: &[u8], stream: &[u8]) -> io::Result<()> {
    match letter {
        b'C' => streams::case(answers, case, stream),
        b'c' => commands::case(answers, case),
        b'r' => replies::case(answers, case),
        b'R' => readers::read(answers, case),
        b'P' => readers::write(answers, case),
        b'M' => masks::case(answers),
        b'H' => masks::asked(answers, case),
        b'X' => unpackers::case(answers, case),
        b'Y' => unpackers::in_a_row(answers, case),
        b'T' => reads::name_text(answers, case),
        b'B' | b'S' | b'U' | b'I' | b'W' => writes::case(answers, letter, case),
        b'b' | b's' | b'u' | b't' | b'i' | b'h' | b'w' | b'F' | b'n' | b'm' | b'd' => {
            reads::case(answers, letter, case)
        }
        _ => write!(answers.out, " unknown case"),
    }
}

// Reads until the buffer is full, the input ends or a read fails: how many bytes stand at its start.
fn read_full(stdin: &mut impl Read, buf: &mut [u8]) -> usize
    ensures { result ≤ length buf.new }
{
    // No `read_exact`, which does not say how many bytes there were; and no `for`, because a read brings as many as it likes.
    let mut done: usize = 0;
    while done < buf.len() {
        match stdin.read(&mut buf[done..]) {
            Ok(0) => return done,
            Ok(count) => done += count,
            Err(_) => return done,
        }
    }
    done
}

// The answers and a case go to each reader as two: the answers outlive the case.
// The answers, and the stream that a case with the letter L brought for those after it.
#[derive(Drop)]
struct Replay {
    answers: Answers,
    stream: ArrayVec<u8, MOST>,
}

impl Replay {
    // A case with the letter L brings a stream for those after it; one with the letter V has each answer after it
    // shown whole.
    fn answer(&mut self, letter: u8, case: &[u8]) -> io::Result<()> {
        match letter {
            b'L' => {
                self.stream = ArrayVec::try_from(case).unwrap_or_default();
                write!(self.answers.out, " loaded {}", self.stream.len())
            }
            b'V' => {
                self.answers.whole = true;
                Ok(())
            }
            _ => answer(&mut self.answers, letter, case, self.stream.as_slice()),
        }
    }

    // The input ends within a case, of which so many bytes came: a line that says so.
    fn stopped(&mut self, got: usize) -> io::Result<bool> {
        writeln!(
            self.answers.out,
            "input cut short after {got} bytes of a case"
        )?;
        Ok(false)
    }

    // One case: whether there may be another.
    fn one(&mut self, stdin: &mut impl Read) -> io::Result<bool> {
        let mut head = [0u8; 3];
        let got = read_full(stdin, &mut head);
        if got == 0 {
            return Ok(false);
        }
        if got < 3 {
            return self.stopped(got);
        }
        let size = cases::half_at(&head, 1);
        let mut space = [0u8; MOST];
        if MOST < size {
            // It can't be passed over: its bytes would be taken for cases.
            writeln!(self.answers.out, "case too long: {size} bytes")?;
            return Ok(false);
        }
        let case = &mut space[..size];
        let filled = read_full(stdin, case);
        if filled < size {
            return self.stopped(filled + 3);
        }
        self.answers.sum = 1;
        self.answers.out.write_all(&head[..1])?;
        self.answer(head[0], case)?;
        self.answers.out.end_line()?;
        Ok(self.answers.out.ok)
    }

    // The input says when it ends; the count is there only so that the loop can be proved to end.
    fn all(&mut self, stdin: &mut impl Read) -> io::Result<()> {
        for _ in 0..u64::MAX {
            if !self.one(stdin)? {
                break;
            }
        }
        self.answers.out.send();
        Ok(())
    }
}

fn run(rt: &HostRuntime) -> io::Result<()> {
    let mut replay = Replay {
        answers: Answers {
            out: Output::new(rt.stdout(), rt.stderr()),
            sum: 1,
            whole: false,
        },
        stream: ArrayVec::new(),
    };
    replay.all(&mut rt.stdin())
}

fn main(rt: HostRuntime) {
    // `Output` has said what failed.
    let _ = run(&rt);
}
