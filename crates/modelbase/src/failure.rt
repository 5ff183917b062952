// Why a command was not carried out.
use image::fault::OpeningFault;
use refusals::{Fault, Refusal};
use std::alloc::{AllocError, AllocFailed};
use std::{fmt, io};
use telling::refusal::RefusalWords;

#[derive(Clone, Copy)]
pub enum Failure {
    // the words are no command
    Usage,
    // a number of lines that is not 1 to 4,096
    Lines,
    // a file that stands already is not made anew
    Exists,
    Missing,
    Unreadable(io::Error),
    // the old file, if any, is as it was
    Unsaved(io::Error),
    // the file's bytes are no image; they stay as they are
    Damaged(Refusal),
    // the words could not be read, or nothing printed
    Outside(io::Error),
    NoMemory,
}

impl From<OpeningFault> for Failure {
    fn from(fault: OpeningFault) -> Failure {
        Failure::Damaged(fault.refusal())
    }
}

impl From<io::Error> for Failure {
    fn from(error: io::Error) -> Failure {
        Failure::Outside(error)
    }
}

impl From<AllocError> for Failure {
    fn from(_error: AllocError) -> Failure {
        Failure::NoMemory
    }
}

impl<T: Drop> From<AllocFailed<T>> for Failure {
    fn from(_refused: AllocFailed<T>) -> Failure {
        Failure::NoMemory
    }
}

impl fmt::Display for Failure {
    fn fmt<W: fmt::Write>(&self, f: &mut fmt::Formatter<W>) -> fmt::Result {
        match *self {
            Failure::Usage => write!(
                f,
                "not a command; write\n  modelbase new FILE LINES    to make a blank file of 1 to 4,096 lines\n  modelbase check FILE        to check a file and list its rows\n  modelbase run FILE          to run the requests on the standard input over a file"
            ),
            Failure::Lines => write!(f, "the number of lines is not 1 to 4,096"),
            Failure::Exists => write!(f, "there is such a file already, and it stays as it is"),
            Failure::Missing => write!(f, "there is no such file"),
            Failure::Unreadable(error) => write!(f, "the file cannot be read: {error}"),
            Failure::Unsaved(error) => write!(f, "nothing is saved: {error}"),
            Failure::Damaged(refusal) => {
                let refusal = RefusalWords(refusal);
                write!(f, "the file is {refusal}; it stays as it is")
            }
            Failure::Outside(error) => write!(f, "{error}"),
            Failure::NoMemory => write!(f, "there is no memory left"),
        }
    }
}
