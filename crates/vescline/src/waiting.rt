// Reads and writes that would block (EAGAIN) or that a signal interrupted (EINTR): neither is an end or a
// failure, and the call is made again.
use std::io::{Error, ErrorKind, Result};
use std::rt::Clock;
use std::thread;
use std::time::Duration;

// Returns where the call that failed just now is to be made again, and hands back the error of one that is not.
// Where the call would block, some ten milliseconds pass first.
pub(crate) fn wait(rt: &impl Clock, error: Error) -> Result<()> {
    match error.kind() {
        ErrorKind::WouldBlock => {
            thread::sleep(rt, Duration::from_millis(10));
            Ok(())
        }
        ErrorKind::Interrupted => Ok(()),
        _ => Err(error),
    }
}
