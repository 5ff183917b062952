// The binding sheet: sixteen entries, one for each variable of the two patterns.
ghost use Rattle.std.specs.Prelude.{◌≡◌, ◌^◌, ◌<◌};
ghost use Rattle.unification.specs.Sheets.{Blank, entry_for};

use terms::cell::{BLANK, Cell};

// The entry of a variable that is bound to the term at a place.
pub fn entry_to(place: usize) -> Cell
    requires { place < 2 ^ 32 }
    ensures { result ≡ entry_for place }
{
    Cell {
        letter: b'T',
        number: place as u32,
    }
}

// A loan of the caller's sheet, which is wiped where the loan ends, whatever way it ends.
pub struct Guard<'a> {
    pub sheet: &'a mut [Cell; 16],
}

impl Drop for Guard<'_> {
    fn drop(self)
        ensures { Blank self.exit.0.now }
    {
        let Guard { sheet } = self;
        *sheet = [BLANK; 16];
    }
}
