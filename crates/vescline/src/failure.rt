// Why the program stops before the end of its input. As text it is what standard error gets.
use arrayvec::ArrayString;
use refusals::FeedError;
use std::fmt;
use std::fmt::Write;
use std::io::Error;

#[derive(Clone, Copy)]
pub(crate) enum Failure {
    Input(Error),
    Output(Error),
    FullFile,
    // Never so: a piece is offered to a drained decoder.
    Refused(FeedError),
}

impl From<FeedError> for Failure {
    fn from(error: FeedError) -> Failure {
        Failure::Refused(error)
    }
}

impl fmt::Display for Failure {
    fn fmt<W: fmt::Write>(&self, f: &mut fmt::Formatter<W>) -> fmt::Result {
        match self {
            Failure::Input(error) => write!(f, "standard input: {}", Words(*error)),
            Failure::Output(error) => write!(f, "standard output: {}", Words(*error)),
            Failure::FullFile => f.write_str("standard output: the file is full"),
            Failure::Refused(FeedError::NotDrained) => f.write_str("bytes refused: not drained"),
        }
    }
}

// The system's words for an error, without the number that its text has behind them: ` (os error 28)`.
#[derive(Clone, Copy)]
struct Words(Error);

impl fmt::Display for Words {
    fn fmt<W: fmt::Write>(&self, f: &mut fmt::Formatter<W>) -> fmt::Result {
        let mut text = ArrayString::<256>::new();
        write!(text, "{}", self.0)?;
        match text.as_str().split_once(" (os error ") {
            Some((words, _)) => f.write_str(words),
            None => f.write_str(text.as_str()),
        }
    }
}
