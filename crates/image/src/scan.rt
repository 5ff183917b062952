// The cells that a line begins with.
ghost use Rattle.lists.specs.Lists.{items};
ghost use Rattle.image.specs.Lines.{Scanned};

use columns::cell::read_cell;
use lists::up_to::UpTo;
use terms::cell::{BLANK, Cell};

// The cells of the fields from the first on, as far as the fields show cells.
pub(crate) fn read_cells(line: &[u8; 128]) -> UpTo<Cell, 12>
    ensures { Scanned line.now (items result) }
{
    let mut found = UpTo::new(BLANK);
    let (fields, _) = line.as_chunks::<10>();
    // pushed one by one, up to the first field that shows no cell
    for field in fields {
        match read_cell(field) {
            Some(cell) => found.push(cell),
            None => return found,
        }
    }
    found
}
