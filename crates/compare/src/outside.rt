// A comparison of two patterns as a caller writes them.
ghost use Rattle.unification.specs.Sheets.{Blank};
ghost use Rattle.compare.specs.Outside.{Compared};

use crate::binding::Binding;
use crate::overlap::overlap;
use crate::sample::Sample;
use crate::sheet::Guard;
use kinds::kind::Kind;
use terms::cell::Cell;
use terms::constraint::Constraint;
use terms::fault::PatternFault;
use terms::pattern::Pattern;
use terms::signature::Signature;

// The cells and the constraints of a pattern, lent by who wrote them, and not yet checked as those of a `Pattern` are.
#[derive(Clone, Copy)]
pub struct Written<'a> {
    pub cells: &'a [Cell],
    pub constraints: &'a [Constraint],
}

// Compares two patterns under the arities of the 32 symbols: a sample of the rows that fit both, none if no row does.
// An overlap writes the bindings; a clash and a refusal leave them.
pub fn compare<K: Kind>(
    kind: &K,
    arities: &[u8; 32],
    left: Written,
    right: Written,
    sheet: &mut [Cell; 16],
    bindings: &mut [Option<Binding>; 16],
) -> Result<Option<Sample>, PatternFault>
    ensures answer { Compared arities.now (K.Kind.means kind.now) (record { cells = left.entry.cells.now; constraints = left.entry.constraints.now }) (record { cells = right.entry.cells.now; constraints = right.entry.constraints.now }) bindings.old bindings.new result }
    ensures blank { Blank sheet.new }
{
    let guard = Guard { sheet };
    let signature = Signature::new(*arities)?;
    let first = Pattern::read(&signature, kind, left.cells, left.constraints)?;
    let second = Pattern::read(&signature, kind, right.cells, right.constraints)?;
    let Some(common) = overlap(kind, &signature, &first, &second, guard.sheet) else {
        return Ok(None);
    };
    let found = common.bindings;
    *bindings = found;
    Ok(Some(common.sample))
}
