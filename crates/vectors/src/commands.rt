// Document 02, W2: command frames that are read, with their hop parts, and those that are refused.
use crate::frames;
use std::io;

fn show(rt: &impl Print, what: &str, frame: &[u8]) -> io::Result<()> {
    print!(rt; "{what}")?;
    frames::bytes(rt, command_reader::hop_part(frame))?;
    frames::judged(
        rt,
        command_reader::read_command(frame).map(|read| read.count),
    )
}

pub(crate) fn payloads(rt: &impl Print) -> io::Result<()> {
    show(rt, "payload 34 7 99: ", &[2, 3, 34, 7, 99, 45, 244, 3])?;
    show(rt, "payload 34: ", &[2, 1, 34, 4, 32, 3])?;
    show(rt, "payload 34 7: ", &[2, 2, 34, 7, 16, 99, 3])?;
    show(rt, "payload 30 0: ", &[2, 2, 30, 0, 32, 124, 3])?;
    show(rt, "payload 34 99: ", &[2, 2, 34, 99, 60, 65, 3])?;
    show(
        rt,
        "payload 34 34 30, hop part ",
        &[2, 3, 34, 34, 30, 123, 221, 3],
    )?;
    show(rt, "no payload: ", &[2, 0, 0, 0, 3])?;
    show(rt, "no payload, another sum: ", &[2, 0, 0, 1, 3])
}
