// Cells in ten columns: the letter, and the number in nine.
ghost use Rattle.columns.specs.Columns.{ReadsCell, WritesCell};

use crate::number::{NoRoom, read_number, write_number};
use terms::cell::Cell;

// The cell that ten columns show, or absent where they show none.
pub fn read_cell(part: &[u8]) -> Option<Cell>
    ensures { ReadsCell part.now result }
{
    if part.len() != 10 {
        return None;
    }
    Some(Cell {
        letter: part[0],
        number: read_number(&part[1..10])?,
    })
}

// Writes a cell into ten columns; refused where they are not ten, or the number has more than nine digits.
pub fn write_cell(cell: Cell, part: &mut [u8]) -> Result<(), NoRoom>
    ensures { WritesCell cell part.old part.new result }
{
    if part.len() != 10 || cell.number > 999_999_999 {
        return Err(NoRoom);
    }
    part[0] = cell.letter;
    write_number(cell.number, &mut part[1..10])
}
