// Document 01's worked stream: 2 0 4 2 1 129 129 169 3, then zeros. A false start waits for 73 bytes of
// GetValues; the reply behind it comes at the 76th byte.
use decoder::Decoder;
use std::io;

// Feeds a zero at a time behind the 9 bytes: how many bytes were fed when a reply came.
fn reply_at(mut decoder: Decoder) -> Option<u8> {
    for fed in 10..=200 {
        let next = decoder.feed(b"\0").decoder.next();
        decoder = next.decoder;
        if next.given.is_some() {
            return Some(fed);
        }
    }
    None
}

pub(crate) fn stream(rt: &impl Print) -> io::Result<()> {
    let fed = Decoder::new().feed(&[2, 0, 4, 2, 1, 129, 129, 169, 3]);
    let next = fed.decoder.next();
    if next.given.is_none() {
        print!(rt; "nothing given, ")?;
    }
    print!(rt; "{}", next.decoder.held())?;
    print!(rt; " held; the reply comes at byte ")?;
    match reply_at(next.decoder) {
        Some(byte) => print!(rt; "{byte}")?,
        None => print!(rt; "none")?,
    }
    print!(rt; "\n")
}
