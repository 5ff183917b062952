// The first cells of a row, written out through the bindings.
ghost use Rattle.std.specs.Prelude.{◌≡◌, ◌≤◌, length, drop};
ghost use Rattle.terms.specs.Terms.{Subst, apply};
ghost use Rattle.unification.specs.Fronts.{Begins, part};
ghost use Rattle.unification.specs.Unifiers.{Assign};
ghost use Rattle.unification.specs.Sheets.{Sol};
ghost use Rattle.unification.specs.Samples.{Fills, Wrote};

use crate::walk::Bound;
use terms::cell::Cell;

impl Bound<'_> {
    // Writes the n terms at `i` to the row from `at` on, each free variable as its fill, as far as the row goes;
    // how long the row then is, 13 if more follows.
    pub fn write(
        &self,
        fills: &[Cell; 16],
        i: usize,
        n: usize,
        row: &mut [Cell; 12],
        at: usize,
    ) -> usize
        requires within { at ≤ 12 }
        requires here { Begins self.now.terms.signature.now.arities n (drop i self.now.terms.cells.now) }
        ensures grows { (at ≤ result) × (result ≤ 13) }
        ensures cells { let sig = self.now.terms.signature.now.arities in let cells = self.now.terms.cells.now in let sheet = self.now.sheet.now in (σ : Subst) → Assign sig σ → Sol sig cells sheet σ → Fills cells sheet fills.now σ → Wrote (apply σ (part sig cells i n)) row.old row.new at result }
    {
        if n == 0 {
            return at;
        }
        if at == 12 {
            return 13;
        }
        let p = self.deref(i);
        let c = self.terms.cells[p];
        if c.letter == b'V' {
            row[at] = fills[c.number as usize];
            return self.write(fills, i + 1, n - 1, row, at + 1);
        }
        row[at] = c;
        let k = self.terms.signature.arity(c);
        if p == i {
            return self.write(fills, i + 1, n - 1 + k, row, at + 1);
        }
        let m = self.write(fills, p + 1, k, row, at + 1);
        if m > 12 {
            return 13;
        }
        self.write(fills, i + 1, n - 1, row, m)
    }
}
