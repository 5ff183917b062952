// Terms that lie one behind the other, and ways through them: past a term, and from a bound variable to what it stands for.
ghost use Rattle.std.specs.Prelude.{◌≡◌, ◌<◌, ◌≤◌, length, drop, MatchOption};
ghost use Rattle.unification.specs.Fronts.{after};
ghost use Rattle.unification.specs.Sheets.{Good, Straight, Derefs, entry};
ghost use Rattle.unification.proofs.Theory.{good_prop};

use terms::cell::Cell;
use terms::signature::Signature;

// The cells of terms, under the arities of a signature.
#[derive(Clone, Copy)]
pub struct Terms<'a> {
    pub signature: &'a Signature,
    pub cells: &'a [Cell],
    ghost good: { Good signature.now.arities cells.now } by { good_prop signature.now.arities cells.now },
}

impl Terms<'_> {
    // The place behind the term at `i`.
    pub fn skip(&self, i: usize) -> usize
        requires { i < length self.now.cells.now }
        ensures within { (i < result) × (result ≤ length self.now.cells.now) }
        ensures rest { drop result self.now.cells.now ≡ after self.now.signature.now.arities 1 (drop i self.now.cells.now) }
    {
        // not a `for`: it ends where no term is to come, which may be before the cells end
        let mut at = i;
        let mut left = 1;
        while left > 0 {
            left = left - 1 + self.signature.arity(self.cells[at]);
            at += 1;
        }
        at
    }
}

// Terms whose variables are bound on a sheet.
#[derive(Clone, Copy)]
pub struct Bound<'a> {
    pub terms: Terms<'a>,
    pub sheet: &'a [Cell; 16],
    ghost straight: { Straight terms.cells.now sheet.now },
}

impl Bound<'_> {
    // Here and below a place is a plain number with its bound in a clause: a type of places in these cells would have to carry the cells.
    // The place of the term that the variable x is bound to; none if x is free.
    pub fn place(&self, x: usize) -> Option<usize>
        requires { x < 16 }
        ensures { MatchOption result (length self.now.terms.cells.now ≤ entry self.now.sheet.now x) (λ p. (p ≡ entry self.now.sheet.now x) × (p < length self.now.terms.cells.now)) }
    {
        let found = self.sheet[x];
        let place = found.number as usize;
        // not `then_some`: the check then no longer finds that the cast fits
        if found.letter != b' ' && place < self.terms.cells.len() {
            Some(place)
        } else {
            None
        }
    }

    // The place that the term at `i` stands for: a symbol, a value or a free variable.
    pub fn deref(&self, i: usize) -> usize
        requires { i < length self.now.terms.cells.now }
        ensures { Derefs self.now.terms.signature.now.arities self.now.terms.cells.now self.now.sheet.now i result }
    {
        let cells = self.terms.cells;
        let mut at = i;
        // each step reads the sheet anew, and ends by the chain's length, which no iterator of the library gives
        while cells[at].letter == b'V' {
            let Some(place) = self.place(cells[at].number as usize) else {
                return at;
            };
            at = place;
        }
        at
    }
}
