// So many of a thing.
use std::fmt;

#[derive(Clone, Copy)]
pub struct Many<'a> {
    pub count: u64,
    pub noun: &'a str,
}

impl<'a> Many<'a> {
    pub(crate) fn of(count: u64, noun: &'a str) -> Many<'a> {
        Many { count, noun }
    }
}

impl<'a> fmt::Display for Many<'a> {
    fn fmt<W: fmt::Write>(&self, f: &mut fmt::Formatter<W>) -> fmt::Result {
        match *self {
            Many { count: 1, noun } => write!(f, "1 {noun}"),
            Many { count, noun } => write!(f, "{count} {noun}s"),
        }
    }
}
