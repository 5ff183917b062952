// A list of calls with remarks between them.
ghost use Rattle.std.specs.Prelude.{◌≡◌, length};

use runs::call::Call;
use std::alloc::{AllocError, Global};
use terms::cell::Cell;
use terms::constraint::Constraint;

// Said before the call of this number, the first being 0.
#[derive(Clone, Copy)]
pub struct Remark<'a> {
    pub before: usize,
    pub text: &'a str,
}

// A row of a consultant's survey, with what was counted.
#[derive(Clone, Copy)]
pub struct Counted<const N: usize> {
    pub row: [Cell; N],
    pub vehicles: u32,
    ghost long: { length row ≡ N },
}

impl<const N: usize> Counted<N> {
    pub fn new(row: [Cell; N], vehicles: u32) -> Counted<N>
        ensures row { result.row ≡ row.entry }
        ensures vehicles { result.vehicles ≡ vehicles }
    {
        Counted { row, vehicles }
    }
}

#[derive(Drop)]
pub struct Script<'a> {
    pub calls: Vec<Call<'a>>,
    pub remarks: Vec<Remark<'a>>,
}

impl<'a> Script<'a> {
    pub fn new(heap: Global) -> Script<'a> {
        Script {
            calls: Vec::new(heap),
            remarks: Vec::new(heap),
        }
    }

    pub fn say(&mut self, text: &'a str) -> Result<(), AllocError> {
        let before = self.calls.len();
        self.remarks.push(Remark { before, text })?;
        Ok(())
    }

    fn call(&mut self, call: Call<'a>) -> Result<(), AllocError> {
        self.calls.push(call)?;
        Ok(())
    }

    pub fn begin(&mut self, planner: u32) -> Result<(), AllocError> {
        self.call(Call::Begin { planner })
    }

    // The right is a letter from outside, as a call has it.
    pub fn reserve(
        &mut self,
        transaction: u32,
        right: u8,
        cells: &'a [Cell],
        constraints: &'a [Constraint],
    ) -> Result<(), AllocError> {
        self.call(Call::Reserve {
            transaction,
            right,
            cells,
            constraints,
        })
    }

    pub fn look(&mut self, transaction: u32, cells: &'a [Cell]) -> Result<(), AllocError> {
        self.call(Call::Look { transaction, cells })
    }

    pub fn survey(&mut self, transaction: u32, reservation: u32) -> Result<(), AllocError> {
        self.call(Call::Survey {
            transaction,
            reservation,
        })
    }

    pub fn write(
        &mut self,
        transaction: u32,
        cells: &'a [Cell],
        count: u32,
    ) -> Result<(), AllocError> {
        self.call(Call::Write {
            transaction,
            cells,
            count,
        })
    }

    // Enters every row of a survey.
    pub fn load<const N: usize>(
        &mut self,
        transaction: u32,
        survey: &'a [Counted<N>],
    ) -> Result<(), AllocError> {
        for counted in survey {
            self.write(transaction, &counted.row, counted.vehicles)?;
        }
        Ok(())
    }

    pub fn strike(&mut self, transaction: u32, cells: &'a [Cell]) -> Result<(), AllocError> {
        self.call(Call::Strike { transaction, cells })
    }

    pub fn commit(&mut self, transaction: u32) -> Result<(), AllocError> {
        self.call(Call::Commit { transaction })
    }

    pub fn abandon(&mut self, transaction: u32) -> Result<(), AllocError> {
        self.call(Call::Abandon { transaction })
    }

    pub fn tally(&mut self) -> Result<(), AllocError> {
        self.call(Call::Tally)
    }
}
