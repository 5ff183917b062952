// The desk at which tickets are held: each call with its answer told.
ghost use Rattle.manager.specs.Book.{Sizes, Well};
ghost use Rattle.ticket_day.specs.Kept.{Well-prop};

use crate::log::Log;
use kinds::bank::AllKinds;
use kinds::kind::Kind;
use manager::fault::ManagerFault;
use manager::host::{AbandonFault, abandon_ticket, begin_ticket, commit_ticket};
use manager::memory::Memory;
use manager::state::Manager;
use manager::ticket::Ticket;
use runs::call::{Answer, Call};
use sheets::running::NO_SAMPLE;
use std::io;
use stores::table::Table;
use terms::cell::{BLANK, Cell};
use terms::constraint::Constraint;

// A manager with its rolls' memory, its store and what is told of it. Between calls all is as every call requires it.
#[derive(Drop)]
pub struct Desk<'a> {
    manager: Manager<AllKinds>,
    memory: Memory<'a>,
    store: Table<'a>,
    sheet: [Cell; 16],
    log: Log<'a>,
    ghost sizes: { Sizes memory },
    ghost well: { Well ⟦<AllKinds as Kind>⟧.means manager memory } by { Well-prop ⟦<AllKinds as Kind>⟧.means manager memory },
}

impl<'a> Desk<'a> {
    pub fn new(
        manager: Manager<AllKinds>,
        memory: Memory<'a>,
        store: Table<'a>,
        log: Log<'a>,
    ) -> Desk<'a>
        requires sizes { Sizes memory }
        requires well { Well ⟦<AllKinds as Kind>⟧.means manager memory }
    {
        Desk {
            manager,
            memory,
            store,
            sheet: [BLANK; 16],
            log,
        }
    }

    pub fn remark(&mut self, text: &str) {
        self.log.remark(text);
    }

    // A ticket for a transaction of the planner's.
    pub fn begin(&mut self, planner: u32) -> Option<Ticket> {
        let begun = begin_ticket(&mut self.manager, &mut self.memory, planner);
        let answer = match &begun {
            Ok(ticket) => Answer::Number(ticket.number()),
            Err(fault) => Answer::Refused(*fault),
        };
        self.log.tell(Call::Begin { planner }, answer, NO_SAMPLE);
        begun.ok()
    }

    pub fn reserve(
        &mut self,
        ticket: &Ticket,
        right: u8,
        cells: &[Cell],
        constraints: &[Constraint],
    ) {
        let transaction = ticket.number();
        let mut sample = NO_SAMPLE;
        let answer = self
            .manager
            .reserve(
                &mut self.memory,
                transaction,
                right,
                cells,
                constraints,
                &mut self.sheet,
                &mut sample,
            )
            .map_or_else(Answer::Refused, Answer::Number);
        let call = Call::Reserve {
            transaction,
            right,
            cells,
            constraints,
        };
        self.log.tell(call, answer, sample);
    }

    pub fn look(&mut self, ticket: &Ticket, cells: &[Cell]) {
        let transaction = ticket.number();
        let answer = self
            .manager
            .look(
                &self.memory,
                &self.store,
                transaction,
                cells,
                &mut self.sheet,
            )
            .map_or_else(Answer::Refused, Answer::Found);
        let call = Call::Look { transaction, cells };
        self.log.tell(call, answer, NO_SAMPLE);
    }

    pub fn survey(&mut self, ticket: &Ticket, reservation: u32) {
        let transaction = ticket.number();
        let answer = self
            .manager
            .survey(
                &self.memory,
                &self.store,
                transaction,
                reservation,
                &mut self.sheet,
            )
            .map_or_else(
                Answer::Refused,
                |(rows, total)| Answer::Figures(rows, total),
            );
        let call = Call::Survey {
            transaction,
            reservation,
        };
        self.log.tell(call, answer, NO_SAMPLE);
    }

    pub fn write(&mut self, ticket: &Ticket, cells: &[Cell], count: u32) {
        let transaction = ticket.number();
        let answer = self
            .manager
            .write(&mut self.memory, transaction, cells, count, &mut self.sheet)
            .map_or_else(Answer::Refused, |()| Answer::Done);
        let call = Call::Write {
            transaction,
            cells,
            count,
        };
        self.log.tell(call, answer, NO_SAMPLE);
    }

    // The ticket is spent: with memory of the rolls' sizes an abandon never hands it back.
    pub fn abandon(&mut self, ticket: Ticket) {
        let transaction = ticket.number();
        let answer = match abandon_ticket(&mut self.manager, &mut self.memory, ticket) {
            Ok(number) => Answer::Number(number),
            Err(AbandonFault::NotOpen) => Answer::Refused(ManagerFault::NotOpen),
            Err(AbandonFault::Back(_)) => unreachable(),
        };
        self.log
            .tell(Call::Abandon { transaction }, answer, NO_SAMPLE);
    }

    // The changes enter the store; a refused commit hands the ticket back.
    pub fn commit(&mut self, ticket: Ticket) -> Option<Ticket> {
        let transaction = ticket.number();
        let committed = commit_ticket(&mut self.manager, &mut self.memory, &mut self.store, ticket);
        let answer = match &committed {
            Ok(number) => Answer::Number(*number),
            Err((_, fault)) => Answer::Refused(*fault),
        };
        self.log
            .tell(Call::Commit { transaction }, answer, NO_SAMPLE);
        committed.err().map(|(ticket, _)| ticket)
    }

    // The store, unless a line could not be printed.
    pub fn end(self) -> io::Result<Table<'a>> {
        let Desk {
            manager: _,
            memory: _,
            store,
            sheet: _,
            log,
        } = self;
        log.end()?;
        Ok(store)
    }
}
