// Signatures as a caller writes them, and what they say of a cell.
ghost use Rattle.std.specs.Prelude.{◌≡◌, ◌<◌};
ghost use Rattle.terms.specs.Reading.{SignatureRead};
ghost use Rattle.terms.specs.Terms.{arity as arity_of};

use crate::cell::Cell;
use crate::fault::PatternFault;
use crate::signature::Signature;

impl Signature {
    // The arities of the 32 symbols; the first that is not allowed is refused.
    pub fn new(arities: [u8; 32]) -> Result<Signature, PatternFault>
        ensures { SignatureRead arities result }
    {
        for (symbol, arity) in arities.iter().enumerate() {
            let most = if symbol == 0 { 0 } else { 7 };
            if *arity > most {
                return Err(PatternFault::Arity { symbol });
            }
        }
        Ok(Signature { arities })
    }

    // How many arguments follow a cell; a symbol above 31 has none.
    pub fn arity(&self, cell: Cell) -> usize
        ensures value { result ≡ arity_of self.now.arities cell }
        ensures small { result < 256 }
    {
        if cell.letter == b'S' && cell.number < 32 {
            self.arities[cell.number as usize] as usize
        } else {
            0
        }
    }
}
