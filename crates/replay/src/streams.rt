// The cases of `Decoder`: a stream is brought by one case, and each case after it makes calls on a fresh
// decoder, in any order. Everything that a call answers, and the state that it leaves, goes into the digest.
use crate::answers::Answers;
use crate::{cases, replies};
use decoder::{Decoder, Fed, GatewayFed, Next};
use std::io;
use std::io::Write;

// What the calls have come to: the decoder, how many replies were given, and the place in the stream from which the
// next piece is taken.
#[derive(Drop)]
struct Run<'a> {
    answers: &'a mut Answers,
    stream: &'a [u8],
    decoder: Decoder,
    replies: u32,
    at: usize,
}

impl<'a> Run<'a> {
    // The two positions, the line figures and every unread byte.
    fn mix_state(&mut self) -> io::Result<()> {
        let decoder = self.decoder;
        self.answers.mix_wide(decoder.rpos as u64)?;
        self.answers.mix_wide(decoder.wpos as u64)?;
        let figures = decoder.figures();
        self.answers.mix_wide(figures.fed)?;
        self.answers.mix_wide(figures.handed)?;
        self.answers.mix_wide(figures.passed)?;
        self.answers.mix_wide(figures.cleared)?;
        self.answers.mix_wide(figures.held)?;
        match decoder.buf.get(decoder.rpos..decoder.wpos) {
            Some(unread) => self.answers.mix_bytes(unread),
            None => Ok(()),
        }
    }

    // The next `size` bytes of the stream, or as many as are left.
    fn piece(&self, size: usize) -> &'a [u8] {
        let rest = self.stream.get(self.at..).unwrap_or(&[]);
        rest.get(..size).unwrap_or(rest)
    }

    // Bytes of the stream that are taken, or never offered.
    fn pass(&mut self, size: usize) {
        self.at = self.at.saturating_add(size).min(self.stream.len());
    }

    // Bytes that are offered again.
    fn take_back(&mut self, size: usize) {
        self.at = self.at.saturating_sub(size);
    }

    fn feed(&mut self, size: usize) -> io::Result<()> {
        let Fed { count, decoder } = self.decoder.feed(self.piece(size));
        self.decoder = decoder;
        self.answers.mix_wide(count as u64)?;
        self.pass(count);
        self.mix_state()
    }

    // Whether the gateway feed refused goes in, and the count or the refusal's number.
    fn gateway_feed(&mut self, size: usize) -> io::Result<()> {
        let GatewayFed { answer, decoder } = self.decoder.gateway_feed(self.piece(size));
        self.decoder = decoder;
        match answer {
            Ok(count) => {
                self.answers.mix(0)?;
                self.answers.mix_wide(count as u64)?;
                self.pass(count);
            }
            Err(e) => {
                self.answers.mix(1)?;
                self.answers.mix_wide(u64::from(e.number()))?;
            }
        }
        self.mix_state()
    }

    // Whether a reply is given. Where none is, the count goes in as 0, and the reply as the empty one.
    fn next(&mut self) -> io::Result<bool> {
        let Next { given, decoder } = self.decoder.next();
        self.decoder = decoder;
        let (count, reply) = given.unwrap_or((0, reply::empty()));
        self.replies = self.replies.wrapping_add(u32::from(given.is_some()));
        self.answers.mix(u32::from(given.is_some()))?;
        self.answers.mix_wide(count as u64)?;
        replies::mix(self.answers, reply)?;
        self.mix_state()?;
        Ok(given.is_some())
    }

    // Asks until nothing comes; 512 bytes hold fewer frames than the turns.
    fn drain(&mut self) -> io::Result<()> {
        for _ in 0..512 {
            if !self.next()? {
                break;
            }
        }
        Ok(())
    }

    fn call(&mut self, code: u8, size: usize) -> io::Result<()> {
        match code {
            0 => {
                self.next()?;
            }
            1 => self.drain()?,
            2 => self.feed(size)?,
            3 => {
                self.feed(size)?;
                self.drain()?;
            }
            4 => self.pass(size),
            6 => self.gateway_feed(size)?,
            7 => {
                self.gateway_feed(size)?;
                self.drain()?;
            }
            // The mark goes into the digest.
            8 => self.answers.mix(u32::from(self.decoder.drained))?,
            _ => self.take_back(size),
        }
        Ok(())
    }

    // The calls of a case, five bytes each: a code, a size and how many times.
    fn all(&mut self, calls: &[u8]) -> io::Result<()> {
        for call in calls.chunks_exact(5) {
            for _ in 0..cases::half_at(call, 3) {
                self.call(call[0], cases::half_at(call, 1))?;
            }
        }
        Ok(())
    }
}

pub(crate) fn case(answers: &mut Answers, calls: &[u8], stream: &[u8]) -> io::Result<()> {
    if calls.len() % 5 != 0 {
        return answers.cut_short();
    }
    let mut run = Run {
        answers,
        stream,
        decoder: Decoder::new(),
        replies: 0,
        at: 0,
    };
    run.all(calls)?;
    let replies = run.replies;
    let held = run.decoder.held();
    write!(answers.out, " replies {replies} unread {held}")?;
    answers.digest()
}
