// Runs the vectors that document 01 wants run, and prints what comes: the catalogue's check value of
// CRC-16/XMODEM, the two readings past 2^24, the frames that it does not mark P and its worked stream.
// An encode behind a million hops is added, states that are handed to the gateway feed (document 02, W12), the masks of
// telemetry records (W1), and command frames that are read (W2).
#![tactic(auto)]

mod commands;
mod frames;
mod handed;
mod masks;
mod said;
mod worked;

use said::Said;
use std::io;

// Here and in the other files each piece of a line is a write of its own, because a piece whose write fails is said by itself.
fn check_value(rt: &impl Print) -> io::Result<()> {
    print!(rt; "checksum of 123456789: ")?;
    print!(rt; "{:04x}", checksum::checksum(b"123456789"))?;
    print!(rt; "\n")
}

// The bits of a whole number's reading over 1: 4b800000 is 16777216, 4b800002 is 16777220.
fn reading(rt: &impl Print, raw: i32) -> io::Result<()> {
    print!(rt; "read over 1: ")?;
    let value = floats::scaled(raw, 1.0);
    print!(rt; "{:08x}", floats::f32_to_bits(value))?;
    print!(rt; "\n")
}

fn run(rt: &impl Print) -> io::Result<()> {
    check_value(rt)?;
    reading(rt, 16777217)?;
    reading(rt, 16777219)?;
    frames::fw_version(rt)?;
    frames::hops_before_alive(rt)?;
    frames::hops_before_set_rpm(rt)?;
    frames::million_hops(rt)?;
    frames::names_without_nul(rt)?;
    worked::stream(rt)?;
    handed::states(rt)?;
    masks::records(rt)?;
    commands::payloads(rt)
}

fn main(rt: HostRuntime) {
    // `Said` has said what failed.
    let _ = run(&Said(&rt));
}
