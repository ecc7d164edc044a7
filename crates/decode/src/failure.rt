// Why a file is not decoded, in the words that standard error gets.
use arrayvec::ArrayString;
use std::fmt::Write;
use std::str::Utf8Error;
use std::{fmt, io};

// Room for what the system calls an error.
const WORDS_LENGTH: usize = 128;

#[derive(Debug, Drop)]
pub(crate) enum Failure {
    NotUtf8,
    TooLong,
    System(io::Error),
}

impl From<Utf8Error> for Failure {
    fn from(_error: Utf8Error) -> Failure {
        Failure::NotUtf8
    }
}

impl From<io::Error> for Failure {
    fn from(error: io::Error) -> Failure {
        Failure::System(error)
    }
}

impl fmt::Display for Failure {
    fn fmt<W: fmt::Write>(&self, f: &mut fmt::Formatter<W>) -> fmt::Result {
        match self {
            Failure::NotUtf8 => f.write_str("not a name in UTF-8"),
            Failure::TooLong => f.write_str("more than 65536 bytes"),
            Failure::System(error) => {
                // The system's words end before the error's number, " (os error 2)".
                let mut text = ArrayString::<WORDS_LENGTH>::new();
                let _ = write!(text, "{error}");
                let text = text.as_str();
                let (words, _) = text.split_once(" (os error ").unwrap_or((text, ""));
                f.write_str(words)
            }
        }
    }
}
