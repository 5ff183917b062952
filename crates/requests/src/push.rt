// Columns at the end of a text.
ghost use Rattle.std.specs.Prelude.{◌≡◌, ◌++◌, OnOk};
ghost use Rattle.std.specs.List.{flat_map};
ghost use Rattle.columns.specs.Columns.{blank, columns, cell_text};
ghost use Rattle.requests.specs.Layout.{three};
ghost use Rattle.requests.specs.Lines.{field};

use std::alloc::AllocError;
use std::iter;
use terms::cell::Cell;
use terms::constraint::Constraint;

pub fn push_blank(out: &mut Vec<u8>, width: usize) -> Result<(), AllocError>
    ensures { OnOk result (out.new.items ≡ out.old.items ++ blank width) }
{
    out.extend(iter::repeat_n(b' ', width))
}

// A number to the right of some columns; one that is too long has as many as it needs.
pub fn push_columns(out: &mut Vec<u8>, width: usize, n: u64) -> Result<(), AllocError>
    ensures { OnOk result (out.new.items ≡ out.old.items ++ columns width n) }
{
    let before = width.saturating_sub(1);
    if n < 10 {
        push_blank(out, before)?;
    } else {
        push_columns(out, before, n / 10)?;
    }
    out.push(b'0' + (n % 10) as u8)?;
    Ok(())
}

// A number in some columns, or blanks where there is none.
pub fn push_field(out: &mut Vec<u8>, width: usize, n: Option<u64>) -> Result<(), AllocError>
    ensures { OnOk result (out.new.items ≡ out.old.items ++ field width n) }
{
    match n {
        Some(n) => push_columns(out, width, n),
        None => push_blank(out, width),
    }
}

pub fn push_cell(out: &mut Vec<u8>, cell: Cell) -> Result<(), AllocError>
    ensures { OnOk result (out.new.items ≡ out.old.items ++ cell_text cell) }
{
    out.push(cell.letter)?;
    push_columns(out, 9, cell.number as u64)?;
    Ok(())
}

// Cells, conditions and the groups of a sample each have a loop: a trait for what has columns would be longer than the three.
pub fn push_cells(out: &mut Vec<u8>, cells: &[Cell]) -> Result<(), AllocError>
    ensures { OnOk result (out.new.items ≡ out.old.items ++ flat_map cell_text cells.now) }
{
    for cell in cells {
        push_cell(out, *cell)?;
    }
    Ok(())
}

// A condition: three groups.
pub fn push_constraint(out: &mut Vec<u8>, constraint: Constraint) -> Result<(), AllocError>
    ensures { OnOk result (out.new.items ≡ out.old.items ++ flat_map cell_text (three constraint)) }
{
    let condition = constraint.condition;
    let groups = [
        Cell {
            letter: condition.form,
            number: constraint.variable,
        },
        Cell {
            letter: b' ',
            number: condition.a,
        },
        Cell {
            letter: b' ',
            number: condition.b,
        },
    ];
    push_cells(out, &groups)
}

pub fn push_constraints(out: &mut Vec<u8>, constraints: &[Constraint]) -> Result<(), AllocError>
    ensures { OnOk result (out.new.items ≡ out.old.items ++ flat_map (λ k. flat_map cell_text (three k)) constraints.now) }
{
    for constraint in constraints {
        push_constraint(out, *constraint)?;
    }
    Ok(())
}
