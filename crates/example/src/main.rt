// The examples of README.md: the code that it shows stands here, and the gate runs it. Each prints what it came to.
#![tactic(auto)]

use std::fmt::Display;
use std::io;
use vesc::{
    Command, Decoder, FeedError, Kind, RawCommand, SetupValues, Stats, StatsMask, ValuesMask,
    ValuesSetupMask,
};

fn encoding(rt: &impl Print) -> io::Result<()> {
    let mut buf = [0u8; 64];
    let query = Command::GetValuesSelective(ValuesMask::RPM | ValuesMask::VOLTAGE_IN);
    let hops = [7u8];
    match vesc::encode(query, &hops, &mut buf) {
        Ok(count) => println!(rt; "bytes to send: {count}"),
        Err(e) => println!(rt; "refusal {}", e.number()),
    }
}

fn decoding(rt: &impl Print, received: &[u8]) -> io::Result<()> {
    let (count, reply) = match vesc::decode(received) {
        Ok(decoded) => decoded,
        Err(e) => return println!(rt; "refusal {}", e.number()),
    };
    println!(rt; "bytes of the frame: {count}")?;
    match reply.kind {
        Kind::GetValuesSelective => {
            let values = reply.values;
            println!(rt; "rpm: {}", values.rpm)?;
            println!(rt; "millivolts: {}", values.voltage_in * 1000.0)?;
            println!(rt; "fault code: {}", u8::from(values.fault_code))
        }
        kind => println!(rt; "another reply: {}", kind.number()),
    }
}

// A level of 0 is a flat pack only if it was sent.
fn battery(rt: &impl Print, received: &[u8]) -> io::Result<()> {
    let values = match vesc::decode(received) {
        Ok((_, reply)) => reply.setup_values,
        Err(_) => SetupValues::default(),
    };
    if values.has(ValuesSetupMask::BATTERY_LEVEL) {
        println!(rt;
            "battery level in percent: {}",
            values.battery_level * 100.0
        )
    } else {
        println!(rt; "no battery level, mask {}", values.mask)
    }
}

fn seconds(rt: &impl Print, received: &[u8]) -> io::Result<()> {
    let stats = match vesc::decode(received) {
        Ok((_, reply)) => reply.stats,
        Err(_) => Stats::default(),
    };
    if stats.has(StatsMask::COUNT_TIME) {
        println!(rt; "seconds counted: {}", stats.count_time)?;
    }
    if !stats.has(StatsMask::COUNT_TIME | StatsMask::SPEED_AVG) {
        println!(rt; "not both, mask {}", stats.mask)?;
    }
    Ok(())
}

// A hop part is 34 and a controller's id by turns. No frame is longer than 260 bytes.
fn writing_back(rt: &impl Print, hops: &[u8], command: RawCommand) -> io::Result<()> {
    println!(rt; "hops: {}", hops.len() / 2)?;
    if let Some(controller) = hops.get(1) {
        println!(rt; "first hop to controller {controller}")?;
    }
    let mut buf = [0u8; 260];
    match vesc::write_command(hops, command, &mut buf) {
        Ok(count) => println!(rt; "bytes written back: {count}"),
        Err(e) => println!(rt; "refusal {}", e.number()),
    }
}

// What stands in for a controller on a bench reads the commands sent to it.
fn reading(rt: &impl Print, sent: &[u8]) -> io::Result<()> {
    let read = match vesc::read_command(sent) {
        Ok(read) => read,
        Err(e) => return println!(rt; "refusal {}", e.number()),
    };
    println!(rt; "bytes of the command frame: {}", read.count)?;
    if let RawCommand::SetCurrent(current) = read.command {
        println!(rt; "milliamperes: {current}")?;
    }
    writing_back(rt, vesc::hop_part(sent), read.command)
}

// Asks until nothing comes. A loop must be seen to end: the decoder's 512 bytes hold fewer frames than that.
fn ask(rt: &impl Print, mut decoder: Decoder) -> io::Result<Decoder> {
    for _ in 0..512 {
        let next = decoder.next();
        decoder = next.decoder;
        let Some((_, reply)) = next.given else {
            break;
        };
        println!(rt; "reply {}", reply.kind.number())?;
    }
    Ok(decoder)
}

// How many bytes were taken, or 0 and a word on why none were.
fn taken(rt: &impl Print, answer: Result<usize, FeedError>) -> io::Result<usize> {
    match answer {
        Ok(count) => {
            println!(rt; "bytes taken: {count}")?;
            Ok(count)
        }
        Err(e) => {
            println!(rt; "refusal {}", e.number())?;
            Ok(0)
        }
    }
}

// Offers a piece once, and does not ask.
fn offer(rt: &impl Print, decoder: Decoder, piece: &[u8]) -> io::Result<Decoder> {
    let fed = decoder.gateway_feed(piece);
    taken(rt, fed.answer)?;
    Ok(fed.decoder)
}

// Offers a piece until all of it is taken: a drained decoder takes at least a byte of a nonempty one.
// So its length is turns enough, which are there so that the loop is seen to end.
fn receive(rt: &impl Print, mut decoder: Decoder, piece: &[u8]) -> io::Result<Decoder> {
    let mut rest = piece;
    for _ in 0..piece.len() {
        if rest.is_empty() {
            break;
        }
        let fed = decoder.gateway_feed(rest);
        let count = taken(rt, fed.answer)?;
        decoder = ask(rt, fed.decoder)?;
        // No more is taken than was offered, so the empty rest stands for no other case.
        rest = rest.get(count..).unwrap_or(&[]);
    }
    Ok(decoder)
}

fn chart(rt: &impl Print, decoder: Decoder) -> io::Result<()> {
    let figures = decoder.figures();
    println!(rt; "fed {}", figures.fed)?;
    println!(rt; "noise {}", figures.passed)?;
    println!(rt; "lost {}", figures.cleared)
}

fn run(rt: &impl Print) -> io::Result<()> {
    encoding(rt)?;
    decoding(
        rt,
        &[2, 11, 50, 0, 0, 1, 128, 0, 0, 4, 210, 1, 176, 230, 49, 3],
    )?;
    decoding(
        rt,
        &[
            2, 12, 50, 0, 0, 129, 128, 255, 255, 250, 36, 1, 176, 5, 250, 27, 3,
        ],
    )?;
    decoding(rt, &[2, 1, 129, 129, 169, 3])?;
    decoding(rt, &[2, 1, 129, 129, 168, 3])?;
    battery(rt, &[2, 7, 51, 0, 0, 1, 0, 0, 0, 247, 187, 3])?;
    battery(rt, &[2, 7, 51, 0, 0, 0, 128, 1, 176, 46, 191, 3])?;
    seconds(rt, &[2, 9, 128, 255, 255, 4, 0, 66, 200, 0, 0, 132, 143, 3])?;
    reading(rt, &[2, 7, 34, 7, 6, 0, 0, 5, 220, 254, 213, 3])?;
    reading(rt, &[2, 3, 34, 7, 99, 45, 244, 3])?;
    let decoder = receive(rt, Decoder::new(), &[255, 2, 1, 129])?;
    let after = receive(rt, decoder, &[129, 169, 3, 2, 1])?;
    chart(rt, after)?;
    let mut full = [0u8; 512];
    full[509] = 2;
    full[510] = 1;
    full[511] = 129;
    let half = receive(rt, Decoder::new(), &full)?;
    let waiting = offer(rt, half, &[])?;
    let kept = receive(rt, waiting, &[129, 169, 3])?;
    chart(rt, kept)?;
    let early = offer(rt, kept, &[2, 1, 129])?;
    offer(rt, early, &[129, 169, 3])?;
    let lost = half.feed(&[]);
    chart(rt, lost.decoder)
}

// Standard output for the examples. A write that fails is said on standard error, with this program's name, and the
// examples go on: a later write may get through.
#[derive(Drop)]
struct Said<'a, R>(&'a R);

impl<'a, R: Eprint> Said<'a, R> {
    fn checked(&self, written: io::Result<()>) -> io::Result<()> {
        if let Err(error) = written {
            let _ = eprintln!(self.0; "example: standard output: {error}");
        }
        Ok(())
    }
}

impl<'a, R: Print + Eprint> Print for Said<'a, R> {
    fn print<D: Display + Drop>(&self, value: D) -> io::Result<()> {
        self.checked(self.0.print(value))
    }

    fn println<D: Display + Drop>(&self, value: D) -> io::Result<()> {
        self.checked(self.0.println(value))
    }

    fn write_all(&self, bytes: &[u8]) -> io::Result<()> {
        self.checked(self.0.write_all(bytes))
    }
}

fn main(rt: HostRuntime) {
    // `Said` has said what failed.
    let _ = run(&Said(&rt));
}
