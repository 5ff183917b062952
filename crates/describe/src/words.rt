// Values in a planner's words.
use kinds::common::Value;
use std::fmt;
use telling::moment::{Moment, moment_of};

#[derive(Clone, Copy)]
pub struct Spoken(pub Value);

impl fmt::Display for Spoken {
    fn fmt<W: fmt::Write>(&self, f: &mut fmt::Formatter<W>) -> fmt::Result {
        let Value { letter, code } = self.0;
        match (letter, moment_of(code)) {
            (b'H', Some(Moment { day, hour })) => write!(f, "{day} {hour}:00"),
            (b'C', _) => write!(f, "class {code}"),
            (b'N', _) => write!(f, "{code}"),
            _ => {
                let letter = char::from(letter);
                write!(f, "{letter}{code}")
            }
        }
    }
}
