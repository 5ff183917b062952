// Calls and answers in sentences.
use kinds::condition::Condition;
use manager::fault::ManagerFault;
use refusals::Fault;
use runs::call::{Answer, Call};
use std::fmt;
use telling::term::Written;
use terms::constraint::Constraint;

// Constraints as they are written on a line, a blank before each.
#[derive(Clone, Copy)]
pub struct Constraints<'a>(pub &'a [Constraint]);

impl<'a> fmt::Display for Constraints<'a> {
    fn fmt<W: fmt::Write>(&self, f: &mut fmt::Formatter<W>) -> fmt::Result {
        for constraint in self.0 {
            let variable = constraint.variable;
            let Condition { form, a, b } = constraint.condition;
            write!(f, " V{variable}:{}:{a}:{b}", char::from(form))?;
        }
        Ok(())
    }
}

// What is asked.
#[derive(Clone, Copy)]
pub struct Asked<'a>(pub Call<'a>);

impl<'a> fmt::Display for Asked<'a> {
    fn fmt<W: fmt::Write>(&self, f: &mut fmt::Formatter<W>) -> fmt::Result {
        match self.0 {
            Call::Begin { planner } => write!(f, "planner {planner} begins"),
            Call::Reserve {
                transaction,
                right,
                cells,
                constraints,
            } => write!(
                f,
                "transaction {transaction} reserves for {}:{}{}",
                char::from(right),
                Written(cells),
                Constraints(constraints)
            ),
            Call::Look { transaction, cells } => {
                write!(f, "transaction {transaction} looks at{}", Written(cells))
            }
            Call::Survey {
                transaction,
                reservation,
            } => write!(
                f,
                "transaction {transaction} surveys reservation {reservation}"
            ),
            Call::Write {
                transaction,
                cells,
                count,
            } => write!(
                f,
                "transaction {transaction} writes {count} for{}",
                Written(cells)
            ),
            Call::Strike { transaction, cells } => {
                write!(f, "transaction {transaction} strikes{}", Written(cells))
            }
            Call::Commit { transaction } => write!(f, "transaction {transaction} commits"),
            Call::Abandon { transaction } => write!(f, "transaction {transaction} abandons"),
            Call::Tally => write!(f, "the tally is asked for"),
        }
    }
}

// What is answered.
#[derive(Clone, Copy)]
pub struct Told(pub Answer);

impl fmt::Display for Told {
    fn fmt<W: fmt::Write>(&self, f: &mut fmt::Formatter<W>) -> fmt::Result {
        match self.0 {
            Answer::Refused(
                ManagerFault::Conflict {
                    transaction,
                    reservation,
                },
            ) => write!(
                f,
                "refused with 30: reservation {reservation} of transaction {transaction} overlaps"
            ),
            Answer::Refused(fault) => write!(f, "refused with {}", fault.refusal().number),
            Answer::Number(number) => write!(f, "number {number}"),
            Answer::Found(Some(count)) => write!(f, "{}", count.value),
            Answer::Found(None) => write!(f, "no such row"),
            Answer::Figures(rows, total) => write!(f, "{rows} rows, {total} vehicles"),
            Answer::Done => write!(f, "done"),
            Answer::Tally(tally) => write!(f, "tally {tally}"),
        }
    }
}
