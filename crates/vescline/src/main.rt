// Reads a controller line's bytes from standard input to its end, prints the id of each reply on a
// line, and at the end the line's figures. A thin program over the proved decoder: it offers what it read to
// the gateway feed, asks until nothing comes, and offers again what was not taken.
#![tactic(auto)]

mod failure;
mod output;
mod waiting;

use decoder::{Decoder, GatewayFed, Next};
use failure::Failure;
use output::{FiguresLine, Output};
use std::io::Read;
use std::rt::Runtime;

// The decoder, and where its replies' ids go.
#[derive(Drop)]
struct Line<'a, R> {
    decoder: Decoder,
    output: Output<'a, R>,
}

impl<'a, R: Runtime> Line<'a, R> {
    // Asks until nothing comes. At most 512 bytes are unread and a frame has at least 6, so the turns are
    // never used up.
    fn ask(&mut self) -> Result<(), Failure> {
        for _ in 0..512 {
            let Next { given, decoder } = self.decoder.next();
            self.decoder = decoder;
            let Some((_, reply)) = given else {
                break;
            };
            self.output.id(reply.kind.number())?;
        }
        Ok(())
    }

    // `example` has the same loop, because README.md shows it whole.
    // Feeds a piece until it is taken. A drained decoder takes at least a byte of a nonempty piece, so its
    // length is turns enough.
    fn feed(&mut self, piece: &[u8]) -> Result<(), Failure> {
        let mut rest = piece;
        for _ in 0..piece.len() {
            if rest.is_empty() {
                break;
            }
            let GatewayFed { answer, decoder } = self.decoder.gateway_feed(rest);
            self.decoder = decoder;
            // No more is taken than was offered, so the empty rest stands for no other case.
            rest = rest.get(answer?..).unwrap_or(&[]);
            self.ask()?;
        }
        Ok(())
    }

    // A read may wait, so what is printed so far is written before it. A read that would block, or is
    // interrupted, brings nothing, and the next turn reads again. The count of turns is there only so that
    // the loop can be proved to end; no input uses it up.
    fn run(&mut self, stdin: &mut impl Read) -> Result<(), Failure> {
        let mut input = [0u8; 65536];
        for _ in 0..u64::MAX {
            self.output.flush()?;
            match stdin.read(&mut input) {
                Ok(0) => break,
                Ok(count) => self.feed(&input[..count])?,
                Err(error) => waiting::wait(self.output.rt, error).map_err(Failure::Input)?,
            }
        }
        self.output.figures(self.decoder.figures())
    }
}

// What failed is said on standard error. Where the input failed, the figures so far stand there too: on standard
// output they say that all went well.
fn main(rt: HostRuntime) {
    let mut line = Line {
        decoder: Decoder::new(),
        output: Output::new(&rt),
    };
    if let Err(failure) = line.run(&mut rt.stdin()) {
        let figures = FiguresLine(line.decoder.figures());
        // Where standard error can't be written, there is nowhere left to say it.
        let _ = match failure {
            Failure::Input(_) => {
                eprintln!(rt; "vescline: {failure}\nvescline: so far {figures}")
            }
            _ => eprintln!(rt; "vescline: {failure}"),
        };
    }
}
