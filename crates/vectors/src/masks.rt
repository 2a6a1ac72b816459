// Document 02, W1: the masks of the three telemetry records, as received, and whether the battery level was sent.
use command::ValuesSetupMask;
use std::io;

// A frame that is refused gives no reply: its masks are those of the empty one.
fn show(rt: &impl Print, what: &str, frame: &[u8]) -> io::Result<()> {
    let reply = match reply::decode(frame) {
        Ok((_, reply)) => reply,
        Err(_) => reply::empty(),
    };
    print!(rt; "{what}")?;
    for mask in [reply.values.mask, reply.setup_values.mask, reply.stats.mask] {
        print!(rt; " ")?;
        print!(rt; "{mask:08x}")?;
    }
    if reply.setup_values.has(ValuesSetupMask::BATTERY_LEVEL) {
        print!(rt; ", battery level sent")?;
    }
    print!(rt; "\n")
}

// A frame of GetValues in which every field is 0.
fn get_values() -> [u8; 79] {
    let mut frame = [0u8; 79];
    frame[..3].copy_from_slice(&[2, 74, 4]);
    frame[76..].copy_from_slice(&[244, 83, 3]);
    frame
}

pub(crate) fn records(rt: &impl Print) -> io::Result<()> {
    show(rt, "masks of GetValues:", &get_values())?;
    show(
        rt,
        "masks of GetValuesSelective, bits 7 and 31:",
        &[2, 9, 50, 128, 0, 0, 128, 0, 0, 4, 210, 202, 207, 3],
    )?;
    show(
        rt,
        "masks of GetValuesSetupSelective, bit 8:",
        &[2, 7, 51, 0, 0, 1, 0, 0, 0, 247, 187, 3],
    )?;
    show(
        rt,
        "masks of GetValuesSetupSelective, bit 7:",
        &[2, 7, 51, 0, 0, 0, 128, 1, 176, 46, 191, 3],
    )?;
    show(
        rt,
        "masks of GetStats, bits 10 and 16 to 31:",
        &[2, 9, 128, 255, 255, 4, 0, 66, 200, 0, 0, 132, 143, 3],
    )?;
    show(rt, "masks of ResetStats:", &[2, 1, 129, 129, 169, 3])?;
    show(
        rt,
        "masks of a refused frame:",
        &[2, 7, 51, 0, 0, 1, 0, 0, 0, 247, 186, 3],
    )
}
