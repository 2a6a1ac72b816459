// States that are handed in: W12's mark decides, and a state that no calls can make is taken as a fresh one. Each
// gets a byte by the gateway feed, and has been fed 7 before, which a fresh one has not.
use decoder::Decoder;
use std::io;

fn state(buf: [u8; 512], rpos: usize, wpos: usize, drained: bool) -> Decoder {
    Decoder {
        buf,
        rpos,
        wpos,
        fed: 7,
        drained,
        ..Decoder::new()
    }
}

fn show(rt: &impl Print, what: &str, handed: Decoder) -> io::Result<()> {
    print!(rt; "{what}")?;
    let fed = handed.gateway_feed(&[2]);
    match fed.answer {
        Ok(count) => {
            print!(rt; ": taken ")?;
            print!(rt; "{count}")?;
        }
        Err(e) => {
            print!(rt; ": refused ")?;
            print!(rt; "{}", e.number())?;
        }
    }
    let figures = fed.decoder.figures();
    print!(rt; ", fed ")?;
    print!(rt; "{}", figures.fed)?;
    print!(rt; ", held ")?;
    print!(rt; "{}", figures.held)?;
    print!(rt; "\n")
}

pub(crate) fn states(rt: &impl Print) -> io::Result<()> {
    let zeros = [0u8; 512];
    let mut framed = zeros;
    framed[..6].copy_from_slice(&[2, 1, 129, 129, 169, 3]);
    show(
        rt,
        "drained, a whole frame unread",
        state(framed, 0, 6, true),
    )?;
    show(rt, "drained, 109 unread", state(zeros, 0, 109, true))?;
    show(
        rt,
        "drained, 109 unread at the end",
        state(zeros, 403, 512, true),
    )?;
    show(rt, "drained, 110 unread", state(zeros, 0, 110, true))?;
    show(rt, "not drained, 110 unread", state(zeros, 0, 110, false))?;
    show(rt, "not drained, none unread", state(zeros, 5, 5, false))?;
    show(
        rt,
        "not drained, write position 513",
        state(zeros, 0, 513, false),
    )?;
    show(
        rt,
        "not drained, read position past it",
        state(zeros, 2, 1, false),
    )
}
