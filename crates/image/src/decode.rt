// What a line shows.
ghost use Rattle.terms.specs.Proper.{RowCells};
ghost use Rattle.image.specs.Texts.{Decoded};

use crate::fields::{check_blank, read_count};
use crate::marred::Marred;
use crate::scan::read_cells;
use columns::blank::is_blank;
use kinds::kind::Kind;
use stores::entry::Entry;
use terms::row::Row;
use terms::scan::check_cells;
use terms::shape::Shape;
use terms::signature::Signature;

const COUNT: Marred = Marred { field: 12 };

const NEWLINE: Marred = Marred { field: 13 };

// The row and count that a line shows, absent for a blank line; else the first field that no proper line begins with.
pub(crate) fn decode<K: Kind>(
    signature: &Signature,
    kind: &K,
    line: &[u8; 128],
) -> Result<Option<Entry>, Marred>
    ensures { Decoded (RowCells signature.now.arities (K.Kind.means kind.now)) line.now result }
{
    let found = read_cells(line);
    let cells = found.as_slice();
    let Some(key) = Row::new(cells) else {
        check_blank(line, 0)?;
        if !is_blank(&line[120..127]) {
            return Err(COUNT);
        }
        if line[127] != b'\n' {
            return Err(NEWLINE);
        }
        return Ok(None);
    };
    check_cells(signature, kind, Shape::Row, cells)?;
    check_blank(line, cells.len())?;
    let count = read_count(line).ok_or(COUNT)?;
    if line[127] != b'\n' {
        return Err(NEWLINE);
    }
    Ok(Some(Entry { key, count }))
}
