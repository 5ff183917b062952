// Robinson's unification on cells. Nothing is copied: a variable is bound to a place.
ghost use Rattle.std.specs.Prelude.{◌≡◌, ◌<◌, length, drop, ◌≢◌};
ghost use Rattle.unification.specs.Fronts.{Begins, at};
ghost use Rattle.unification.specs.Sheets.{Straight, Rooted, Names, Stepped};
ghost use Rattle.compare.specs.Heads.{Headed};

use crate::sheet::entry_to;
use crate::walk::{Bound, Terms};
use terms::cell::Cell;

// How two heads meet.
pub enum Heads {
    // by a binding, or by nothing
    Bound,
    // they are the same symbol or value: the arguments are left
    Equal,
    Never,
}

impl Terms<'_> {
    // Makes the heads at `p` and `q` meet, neither a bound variable. Of two variables the larger is bound to the smaller.
    fn meet(&self, sheet: &mut [Cell; 16], p: usize, q: usize) -> Heads
        requires straight { Straight self.now.cells.now sheet.old }
        requires left { Rooted self.now.cells.now sheet.old p }
        requires right { Rooted self.now.cells.now sheet.old q }
        ensures { Headed self.now.signature.now.arities self.now.cells.now sheet.old sheet.new p q result }
    {
        let a = self.cells[p];
        let b = self.cells[q];
        if a.letter == b'V' {
            let x = a.number as usize;
            if b.letter == b'V' {
                let y = b.number as usize;
                if x < y {
                    sheet[y] = entry_to(p);
                } else if y < x {
                    sheet[x] = entry_to(q);
                }
                return Heads::Bound;
            }
            sheet[x] = entry_to(q);
            return Heads::Bound;
        }
        if b.letter == b'V' {
            sheet[b.number as usize] = entry_to(p);
            return Heads::Bound;
        }
        if a.letter == b.letter && a.number == b.number {
            return Heads::Equal;
        }
        Heads::Never
    }

    // The variable through which the comparison came from `i` and `j` to other places.
    fn opened(&self, i: usize, j: usize) -> usize
        requires within { (i < length self.now.cells.now) × (j < length self.now.cells.now) }
        requires some { ((at self.now.cells.now i).letter ≢ 86) → (at self.now.cells.now j).letter ≡ 86 }
        ensures { Names self.now.cells.now i j result }
    {
        if self.cells[i].letter == b'V' {
            self.cells[i].number as usize
        } else {
            self.cells[j].number as usize
        }
    }

    // Makes the n terms at `i` and the n terms at `j` equal, by bindings on the sheet; false if nothing can.
    // `seen` has the variables whose terms the comparison is inside of: to meet one of them again is a circle.
    // The sheet is no field here: with `&mut self` each call would have to promise that the terms stay.
    pub fn unify(
        &self,
        sheet: &mut [Cell; 16],
        i: usize,
        j: usize,
        n: usize,
        seen: [bool; 16],
    ) -> bool
        requires straight { Straight self.now.cells.now sheet.old }
        requires left { Begins self.now.signature.now.arities n (drop i self.now.cells.now) }
        requires right { Begins self.now.signature.now.arities n (drop j self.now.cells.now) }
        ensures { Stepped self.now.signature.now.arities self.now.cells.now sheet.old sheet.new i j n seen result }
    {
        if n == 0 {
            return true;
        }
        let bound = Bound {
            terms: *self,
            sheet: &*sheet,
        };
        let p = bound.deref(i);
        let q = bound.deref(j);
        match self.meet(sheet, p, q) {
            Heads::Never => false,
            Heads::Bound => {
                let u = self.skip(i);
                let v = self.skip(j);
                self.unify(sheet, u, v, n - 1, seen)
            }
            Heads::Equal => {
                let k = self.signature.arity(self.cells[p]);
                if p == i && q == j {
                    return self.unify(sheet, i + 1, j + 1, n - 1 + k, seen);
                }
                let x = self.opened(i, j);
                if seen[x] {
                    return false;
                }
                let mut more = seen;
                more[x] = true;
                if !self.unify(sheet, p + 1, q + 1, k, more) {
                    return false;
                }
                let u = self.skip(i);
                let v = self.skip(j);
                self.unify(sheet, u, v, n - 1, seen)
            }
        }
    }
}
