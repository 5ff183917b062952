// The line of a row and its count, and the blank line.
ghost use Rattle.std.specs.Prelude.{◌≡◌, length};
ghost use Rattle.stores.specs.Means.{count_of};
ghost use Rattle.terms.specs.Fitting.{cells_of};
ghost use Rattle.image.specs.Lines.{shown, blank_line};

use columns::blank::write_blank;
use columns::cell::write_cell;
use columns::number::write_number;
use stores::count::Count;
use terms::row::Row;

// Writes the line of a row and its count. A row's numbers and a count have room in their columns.
pub(crate) fn encode(key: &Row, count: Count, line: &mut [u8])
    requires { length line.old ≡ 128 }
    ensures { line.new ≡ shown (cells_of key.now) (count_of count) }
{
    write_blank(line);
    // by index: once a `chunks_exact_mut` ends, nothing is proved of the line but its length
    for (j, cell) in key.cells().iter().enumerate() {
        let _ = write_cell(*cell, &mut line[j * 10..j * 10 + 10]);
    }
    let _ = write_number(count.value, &mut line[120..127]);
    line[127] = b'\n';
}

// Writes the blank line of a free place.
pub(crate) fn write_blank_line(line: &mut [u8])
    requires { length line.old ≡ 128 }
    ensures { line.new ≡ blank_line }
{
    write_blank(line);
    line[127] = b'\n';
}
