// The memory of a row.
ghost use Rattle.std.specs.Prelude.{◌≡◌, ◌<◌, true, length};
ghost use Rattle.lists.specs.Lists.{items};
ghost use Rattle.terms.specs.Short.{all_short};

use crate::cell::Cell;
use lists::up_to::UpTo;

// Cells that can be kept as a row: 1 to 12, with numbers of at most nine digits. Whether they are a row of a signature and a kind is checked apart.
#[derive(Clone, Copy)]
pub struct Row {
    pub(crate) cells: UpTo<Cell, 12>,
    ghost some: { 0 < length (items cells) },
    ghost short: { all_short (items cells) ≡ true },
}
