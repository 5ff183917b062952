// What is asked of a manager, and what it answers.
use manager::fault::ManagerFault;
use stores::count::Count;
use terms::cell::Cell;
use terms::constraint::Constraint;

// A call as it comes from outside: nothing of it has been checked. It is lent its cells, where a `Request` owns those that it read.
#[derive(Clone, Copy)]
pub enum Call<'a> {
    Begin {
        planner: u32,
    },
    Reserve {
        transaction: u32,
        right: u8,
        cells: &'a [Cell],
        constraints: &'a [Constraint],
    },
    Look {
        transaction: u32,
        cells: &'a [Cell],
    },
    Survey {
        transaction: u32,
        reservation: u32,
    },
    Write {
        transaction: u32,
        cells: &'a [Cell],
        count: u32,
    },
    Strike {
        transaction: u32,
        cells: &'a [Cell],
    },
    Commit {
        transaction: u32,
    },
    Abandon {
        transaction: u32,
    },
    Tally,
}

#[derive(Clone, Copy)]
pub enum Answer {
    Refused(ManagerFault),
    // the number of a transaction, a reservation or a commit, or how many changes were abandoned
    Number(u32),
    // the count of a row, or absent
    Found(Option<Count>),
    // how many rows fit, and the total of their counts
    Figures(u32, u64),
    // the change was entered
    Done,
    // how many reserves were refused for conflict
    Tally(u32),
}
