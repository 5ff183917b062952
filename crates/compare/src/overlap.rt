// Whether some row fits two patterns.
ghost use Rattle.std.specs.Prelude.{◌≡◌, ℕ, ◌-◌, ◌<◌, ◌≤◌, length, Decides, MatchOption};
ghost use Rattle.std.specs.List.{AllByRecursion};
ghost use Rattle.terms.specs.Terms.{Fine};
ghost use Rattle.terms.specs.Fitting.{described, cells_of, Fits};
ghost use Rattle.terms.specs.Proper.{ProperPattern, RowCells};
ghost use Rattle.unification.specs.Unifiers.{sequence};
ghost use Rattle.unification.specs.Sheets.{Good, Straight, Blank};
ghost use Rattle.unification.specs.Orders.{Ordered};
ghost use Rattle.unification.specs.Pairs.{Overlap};
ghost use Rattle.compare.specs.Bindings.{WithinPatterns, replacements};
ghost use Rattle.compare.specs.Roots.{constraint_at};
ghost use Rattle.compare.specs.Answers.{Unsampled, Drawn, CommonPart};

use crate::classes::settle;
use crate::join::join;
use crate::sample::{Common, Sample};
use crate::sheet::Guard;
use crate::walk::{Bound, Terms};
use kinds::kind::Kind;
use terms::cell::{BLANK, Cell};
use terms::constraint::Constraint;
use terms::pattern::Pattern;
use terms::row::Row;
use terms::signature::Signature;

impl Bound<'_> {
    // Puts the bindings in order, settles the constraints and writes a sample of the term at 0.
    // `left` is the number of the left pattern's cells.
    fn finish<K: Kind>(&self, kind: &K, constraints: &[Constraint], left: usize) -> Option<Common>
        requires fine { AllByRecursion (Fine (K.Kind.means kind.now) 16) self.now.terms.cells.now }
        requires some { 0 < length self.now.terms.cells.now }
        requires few { length constraints.now ≤ 16 }
        requires named { (k : ℕ) → k < length constraints.now → (constraint_at constraints.now k).variable < 16 }
        ensures { let sig = self.now.terms.signature.now.arities in let cells = self.now.terms.cells.now in let sheet = self.now.sheet.now in MatchOption result (Unsampled sig (K.Kind.means kind.now) cells sheet constraints.now) (λ common. Ordered sig cells sheet (replacements sig cells left common.bindings) × AllByRecursion (WithinPatterns left (length cells - left)) common.bindings × Drawn sig (K.Kind.means kind.now) cells sheet constraints.now (sequence (replacements sig cells left common.bindings)) common.sample) }
    {
        let bindings = self.order(left)?;
        let fills = settle(kind, self.terms.cells, &self.roots(), constraints)?;
        let mut row = [BLANK; 12];
        let len = self.write(&fills, 0, 1, &mut row, 0);
        let sample = Sample {
            cells: row,
            more: len > 12,
        };
        Some(Common { bindings, sample })
    }
}

// The bindings and a sample of the rows that fit both patterns; none exactly if no row fits both.
// The patterns are proper ones under the signature and the kind, as those that were read are; there is nothing to refuse.
pub fn overlap<K: Kind>(
    kind: &K,
    signature: &Signature,
    left: &Pattern,
    right: &Pattern,
    sheet: &mut [Cell; 16],
) -> Option<Common>
    requires left { ProperPattern signature.now.arities (K.Kind.means kind.now) (described left.now) }
    requires right { ProperPattern signature.now.arities (K.Kind.means kind.now) (described right.now) }
    ensures answer { MatchOption result (Overlap signature.now.arities (K.Kind.means kind.now) (described left.now) (described right.now) → ⊥) (λ a. CommonPart signature.now.arities (K.Kind.means kind.now) (described left.now) (described right.now) a) }
    ensures blank { Blank sheet.new }
{
    let joint = join(left, right);
    let terms = Terms {
        signature,
        cells: joint.cells.as_slice(),
    };
    *sheet = [BLANK; 16];
    let guard = Guard { sheet };
    if !terms.unify(guard.sheet, 0, joint.left, 1, [false; 16]) {
        return None;
    }
    let bound = Bound {
        terms,
        sheet: &*guard.sheet,
    };
    bound.finish(kind, joint.constraints.as_slice(), joint.left)
}

// Whether the row fits the pattern: whether the two overlap, the row as a pattern without variables.
// Both are proper under the signature and the kind, as those that were read are; there is nothing to refuse.
pub fn fits<K: Kind>(
    kind: &K,
    signature: &Signature,
    row: &Row,
    pattern: &Pattern,
    sheet: &mut [Cell; 16],
) -> bool
    requires row { RowCells signature.now.arities (K.Kind.means kind.now) (cells_of row.now) }
    requires pattern { ProperPattern signature.now.arities (K.Kind.means kind.now) (described pattern.now) }
    ensures answer { Decides result (Fits signature.now.arities (K.Kind.means kind.now) (cells_of row.now) (described pattern.now)) }
    ensures blank { Blank sheet.new }
{
    let alone = Pattern::from(row);
    overlap(kind, signature, &alone, pattern, sheet).is_some()
}
