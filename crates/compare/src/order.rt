// The bindings of a sheet, in an order in which they can be applied one after another.
ghost use Rattle.std.specs.Prelude.{◌≡◌, ℕ, ◌+◌, ◌-◌, ◌<◌, ◌≤◌, false, length, MatchOption, nat_lt, slice_index_or};
ghost use Rattle.std.specs.List.{AllByRecursion};
ghost use Rattle.unification.specs.Sheets.{entry};
ghost use Rattle.unification.specs.Orders.{Ready, Within, Stuck, opens, Unsolved, Ordered};
ghost use Rattle.compare.specs.Bindings.{joint, place_of, CellWithin, WithinPatterns, replacements};
ghost use Rattle.compare.specs.Leaves.{IsLeaf};

use crate::binding::{Binding, Side, TermPlace, Variable};
use crate::walk::{Bound, Terms};

impl Variable {
    // The variable x, of which 8 to 15 are the right pattern's.
    fn joint(x: usize) -> Variable
        requires { x < 16 }
        ensures same { joint result ≡ x }
        ensures small { result.number < 8 }
    {
        if x < 8 {
            Variable {
                side: Side::Left,
                number: x as u8,
            }
        } else {
            Variable {
                side: Side::Right,
                number: (x - 8) as u8,
            }
        }
    }
}

impl TermPlace {
    // The term at a place, where the left pattern's cells come first.
    fn joint(place: usize, left: usize) -> TermPlace
        ensures same { place_of left result ≡ place }
        ensures within { CellWithin left (place + 1 - left) result.side result.cell }
    {
        if place < left {
            TermPlace {
                side: Side::Left,
                cell: place,
            }
        } else {
            TermPlace {
                side: Side::Right,
                cell: place - left,
            }
        }
    }
}

// A bound variable whose term has no waiting variable.
#[derive(Clone, Copy)]
pub struct Leaf {
    pub variable: usize,
    pub place: usize,
}

impl Terms<'_> {
    // Whether the term at `i` has no waiting variable.
    fn ready(&self, wait: [bool; 16], i: usize) -> bool
        requires { i < length self.now.cells.now }
        ensures { Ready self.now.signature.now.arities self.now.cells.now wait i result }
    {
        let mut to_come = 1;
        // not `any`: it ends where no term is to come, and that a variable has a place in `wait` is known of these cells alone
        for cell in &self.cells[i..] {
            if to_come == 0 {
                break;
            }
            if cell.letter == b'V' && wait[cell.number as usize] {
                return false;
            }
            to_come = to_come - 1 + self.signature.arity(*cell);
        }
        true
    }
}

impl Bound<'_> {
    // A waiting variable that is a leaf.
    fn leaf(&self, wait: [bool; 16]) -> Option<Leaf>
        requires { Within self.now.terms.cells.now self.now.sheet.now wait }
        ensures { let sig = self.now.terms.signature.now.arities in let cells = self.now.terms.cells.now in let sheet = self.now.sheet.now in MatchOption result (Stuck sig cells sheet wait) (λ leaf. IsLeaf sig cells sheet wait leaf) }
    {
        // not `find_map`: of a closure with several calls too little is known to tell what its `None` says
        for variable in 0..16 {
            if wait[variable] {
                if let Some(place) = self.place(variable) {
                    if self.terms.ready(wait, place) {
                        return Some(Leaf { variable, place });
                    }
                }
            }
        }
        None
    }

    // Which variables are bound.
    fn bound_variables(&self) -> [bool; 16]
        ensures { (x : ℕ) → x < 16 → slice_index_or result x false ≡ nat_lt (entry self.now.sheet.now x) (length self.now.terms.cells.now) }
    {
        // not `from_fn`: tried, also over a method as in `roots`; what its closure answers stayed unproved
        let mut bound = [false; 16];
        for x in 0..16 {
            bound[x] = self.place(x).is_some();
        }
        bound
    }

    // The bindings, so that no variable stands in its own term or in a later one's; none if they go in a circle.
    // `left` is the number of the left pattern's cells.
    pub fn order(&self, left: usize) -> Option<[Option<Binding>; 16]>
        ensures { let sig = self.now.terms.signature.now.arities in let cells = self.now.terms.cells.now in let sheet = self.now.sheet.now in MatchOption result (Unsolved sig cells sheet) (λ out. Ordered sig cells sheet (replacements sig cells left out) × AllByRecursion (WithinPatterns left (length cells - left)) out) }
    {
        let mut wait = self.bound_variables();
        let to_place = wait.iter().filter(|open| **open).count();
        let mut out = [None; 16];
        // by number, from the last place to be filled: `out` is written and not gone through
        for k in (0..to_place).rev() {
            let leaf = self.leaf(wait)?;
            let binding = Binding {
                variable: Variable::joint(leaf.variable),
                term: TermPlace::joint(leaf.place, left),
            };
            out[k] = Some(binding);
            wait[leaf.variable] = false;
        }
        Some(out)
    }
}
