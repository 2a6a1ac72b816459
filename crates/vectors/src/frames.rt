// Document 01, "Frames on both sides of each rule" and "Commands": the lines that are run.
ghost use Rattle.std.specs.Prelude.{◌≤◌};

use command::Command;
use refusals::{DecodeError, EncodeError};
use std::io;

fn line(rt: &impl Print, word: &str, number: usize) -> io::Result<()> {
    print!(rt; "{word}")?;
    print!(rt; "{number}")?;
    print!(rt; "\n")
}

// The number of bytes written, or document 01's number of the refusal.
fn encoded(rt: &impl Print, answer: Result<usize, EncodeError>) -> io::Result<()> {
    match answer {
        Ok(count) => line(rt, "written ", count),
        Err(e) => line(rt, "refused ", usize::from(e.number())),
    }
}

// The number of bytes that were read, or document 01's number of the refusal and the values returned with it, in
// the words of this program's stored output.
pub(crate) fn judged(rt: &impl Print, answer: Result<usize, DecodeError>) -> io::Result<()> {
    let e = match answer {
        Ok(count) => return line(rt, "good ", count),
        Err(e) => e,
    };
    print!(rt; "refused ")?;
    print!(rt; "{}", e.number())?;
    match e {
        DecodeError::IncompleteData | DecodeError::InvalidFrame => {}
        DecodeError::UnknownPacket { id } => {
            print!(rt; ", id ")?;
            print!(rt; "{id}")?;
        }
        DecodeError::ChecksumMismatch { expected, actual } => {
            print!(rt; ", expected ")?;
            print!(rt; "{expected:04x}")?;
            print!(rt; ", actual ")?;
            print!(rt; "{actual:04x}")?;
        }
    }
    print!(rt; "\n")
}

pub(crate) fn bytes(rt: &impl Print, all: &[u8]) -> io::Result<()> {
    for &byte in all {
        print!(rt; "{byte}")?;
        print!(rt; " ")?;
    }
    Ok(())
}

pub(crate) fn fw_version(rt: &impl Print) -> io::Result<()> {
    let mut buf = [0u8; 6];
    let answer = encode::encode(Command::FwVersion, b"", &mut buf);
    print!(rt; "FwVersion: ")?;
    bytes(rt, &buf)?;
    encoded(rt, answer)
}

fn behind(rt: &impl Print, hops: &[u8], sent: Command) -> io::Result<()> {
    let mut buf = [0u8; 300];
    encoded(rt, encode::encode(sent, hops, &mut buf))
}

pub(crate) fn hops_before_alive(rt: &impl Print) -> io::Result<()> {
    println!(rt; "127 and 128 hops before Alive:")?;
    behind(rt, &[7u8; 127], Command::Alive)?;
    behind(rt, &[7u8; 128], Command::Alive)
}

pub(crate) fn hops_before_set_rpm(rt: &impl Print) -> io::Result<()> {
    println!(rt; "125 and 126 hops before SetRpm:")?;
    behind(rt, &[7u8; 125], Command::SetRpm(-1500))?;
    behind(rt, &[7u8; 126], Command::SetRpm(-1500))
}

// Refused before any recursion over the hops.
pub(crate) fn million_hops(rt: &impl Print) -> io::Result<()> {
    print!(rt; "a million hops before Alive: ")?;
    behind(rt, &[9u8; 1000000], Command::Alive)
}

// What so many bytes of a frame whose name has no NUL are judged to be: 2, a length, an id, 1, 1, and then 65.
fn front(rt: &impl Print, declared: u8, id: u8, count: usize) -> io::Result<()>
    requires { count ≤ 60 }
{
    let mut unending = [65u8; 60];
    unending[..5].copy_from_slice(&[2, declared, id, 1, 1]);
    judged(rt, judge::judge(&unending[..count]))
}

// A name without a NUL in FwVersion and in FwInfo, a byte short of its room and with all of it.
pub(crate) fn names_without_nul(rt: &impl Print) -> io::Result<()> {
    println!(rt; "FwVersion with 38 and 39 bytes of a name:")?;
    front(rt, 105, 0, 43)?;
    front(rt, 105, 0, 44)?;
    println!(rt; "FwInfo with 46 and 47 bytes of a name:")?;
    front(rt, 98, 157, 52)?;
    front(rt, 98, 157, 53)
}
