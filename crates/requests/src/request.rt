// A request, as it comes from outside: nothing of it has been checked but its layout.
ghost use Rattle.std.specs.Prelude.{◌≡◌};
ghost use Rattle.requests.specs.Fields.{LineOf};
ghost use Rattle.requests.specs.Layout.{asked_of, fields};

use crate::word::Word;
use terms::cell::Cell;
use terms::constraint::Constraint;

// It owns its cells, and a call of `runs` is lent them: one enum over both would carry two parameters everywhere, and still be lent arm by arm.
#[derive(Drop)]
pub enum Request {
    Begin {
        planner: u32,
    },
    Reserve {
        transaction: u32,
        right: u8,
        cells: Vec<Cell>,
        constraints: Vec<Constraint>,
    },
    Look {
        transaction: u32,
        cells: Vec<Cell>,
    },
    Survey {
        transaction: u32,
        reservation: u32,
    },
    Write {
        transaction: u32,
        cells: Vec<Cell>,
        count: u32,
    },
    Strike {
        transaction: u32,
        cells: Vec<Cell>,
    },
    Commit {
        transaction: u32,
    },
    Abandon {
        transaction: u32,
    },
    Tally,
}

// What a request's columns hold; what is absent is blank.
#[derive(Clone, Copy)]
pub(crate) struct RequestLine<'a> {
    pub word: Word,
    pub first: Option<u64>,
    pub second: Option<u64>,
    pub right: u8,
    pub cells: &'a [Cell],
    pub constraints: &'a [Constraint],
}

impl Request {
    pub fn word(&self) -> Word
        ensures { result ≡ (fields (asked_of self.now)).word }
    {
        self.line().word
    }

    // The columns in which the request is written.
    pub(crate) fn line(&self) -> RequestLine<'_>
        ensures { LineOf (asked_of self.now) result }
    {
        let blank = RequestLine {
            word: Word::Tally,
            first: None,
            second: None,
            right: b' ',
            cells: &[],
            constraints: &[],
        };
        match self {
            Request::Begin { planner } => RequestLine {
                word: Word::Begin,
                first: Some(u64::from(*planner)),
                ..blank
            },
            Request::Reserve {
                transaction,
                right,
                cells,
                constraints,
            } => RequestLine {
                word: Word::Reserve,
                first: Some(u64::from(*transaction)),
                second: None,
                right: *right,
                cells,
                constraints,
            },
            Request::Look { transaction, cells } => RequestLine {
                word: Word::Look,
                first: Some(u64::from(*transaction)),
                cells,
                ..blank
            },
            Request::Survey {
                transaction,
                reservation,
            } => RequestLine {
                word: Word::Survey,
                first: Some(u64::from(*transaction)),
                second: Some(u64::from(*reservation)),
                ..blank
            },
            Request::Write {
                transaction,
                cells,
                count,
            } => RequestLine {
                word: Word::Write,
                first: Some(u64::from(*transaction)),
                second: Some(u64::from(*count)),
                cells,
                ..blank
            },
            Request::Strike { transaction, cells } => RequestLine {
                word: Word::Strike,
                first: Some(u64::from(*transaction)),
                cells,
                ..blank
            },
            Request::Commit { transaction } => RequestLine {
                word: Word::Commit,
                first: Some(u64::from(*transaction)),
                ..blank
            },
            Request::Abandon { transaction } => RequestLine {
                word: Word::Abandon,
                first: Some(u64::from(*transaction)),
                ..blank
            },
            Request::Tally => blank,
        }
    }
}
