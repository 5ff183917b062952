// Opening an image.
ghost use Rattle.std.specs.Prelude.{◌≡◌, ◌<◌, MatchResult};
ghost use Rattle.refusals.specs.Checks.{Checked};
ghost use Rattle.terms.specs.Proper.{RowCells};
ghost use Rattle.terms.specs.Rows.{Storable};
ghost use Rattle.stores.specs.declared.fault.StoreFault.TheVariants.{Length};
ghost use Rattle.image.specs.Laws.{Exactly};
ghost use Rattle.image.specs.Meaning.{lines_in, Sound};
ghost use Rattle.image.specs.Open.{Sizes, GoodTo, LineChecked, LinesChecked, Accepted, Refused};

use crate::decode::decode;
use crate::fault::OpeningFault;
use crate::image::Image;
use crate::lines::{lines_of, place_of};
use crate::memory::Lines;
use kinds::kind::Kind;
use stores::fault::StoreFault;
use stores::length::check_places;
use terms::signature::Signature;

// 1 to 4,096 whole lines.
fn check_size(image: &[u8]) -> Result<(), StoreFault>
    ensures { Checked (Sizes image.now) Length result }
{
    if image.len() % 128 != 0 {
        return Err(StoreFault::Length);
    }
    check_places(image.len() / 128)
}

// One line after good ones.
fn check_line<K: Kind>(
    signature: &Signature,
    kind: &K,
    image: &[u8],
    k: usize,
) -> Result<(), StoreFault>
    requires within { k < lines_in image.now }
    requires before { GoodTo (RowCells signature.now.arities (K.Kind.means kind.now)) image.now k }
    ensures { LineChecked (RowCells signature.now.arities (K.Kind.means kind.now)) image.now k result }
{
    let lines = lines_of(image);
    let line = &lines[k];
    let shown = decode(signature, kind, line).map_err(|marred| StoreFault::Line {
        line: k,
        field: marred.field + 1,
    })?;
    if shown.is_some() && place_of(&lines[..k], &line[..120]).is_some() {
        return Err(StoreFault::Again { line: k });
    }
    Ok(())
}

// The lines from the top.
fn check_lines<K: Kind>(signature: &Signature, kind: &K, image: &[u8]) -> Result<(), StoreFault>
    ensures { LinesChecked (RowCells signature.now.arities (K.Kind.means kind.now)) image.now result }
{
    // by number: a line's check looks among the lines before it
    for k in 0..lines_of(image).len() {
        check_line(signature, kind, image, k)?;
    }
    Ok(())
}

// The lines of an image, where every line is free or has a row of the signature and the kind, and no row stands twice.
// It is checked as it is read, and nothing is written.
pub fn open<'a, K: Kind>(
    kind: &K,
    arities: &[u8; 32],
    image: &'a mut [u8],
) -> Result<Lines<'a>, OpeningFault>
    ensures { MatchResult result (λ t. Accepted arities.now (K.Kind.means kind.now) image.old t.bytes.now) (λ f. Refused arities.now (K.Kind.means kind.now) image.old f) }
{
    check_size(image)?;
    let signature = Signature::new(*arities)?;
    check_lines(&signature, kind, image)?;
    Ok(Lines { bytes: image })
}

impl<'a> Lines<'a> {
    // The store in lines that were opened. Only an opening makes lines, and it promises what is required here; a result
    // cannot hold the image itself, since no rule covers an enum of a struct with a `&mut` and a ghost field.
    pub fn into_store(self) -> Image<'a>
        requires { Sound Storable self.bytes.now }
        ensures { result.lines.bytes.now ≡ self.entry.bytes.now }
    {
        Image { lines: self }
    }
}

// Asks for the theorem that an opening accepts exactly the images of places, and that they mean these.
pub fn opening_stands<K: Kind>(signature: &Signature, kind: &K) -> u8
    ensures { Exactly (RowCells signature.now.arities (K.Kind.means kind.now)) }
{
    0
}
