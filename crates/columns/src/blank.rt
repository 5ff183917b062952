// Blank columns.
ghost use Rattle.std.specs.Prelude.{◌≡◌, length, Decides};
ghost use Rattle.columns.specs.Columns.{blank};

// Whether every byte is a space.
pub fn is_blank(part: &[u8]) -> bool
    ensures { Decides result (part.now ≡ blank (length part.now)) }
{
    part.iter().all(|b| *b == b' ')
}

// Makes every byte a space.
pub fn write_blank(part: &mut [u8])
    ensures { part.new ≡ blank (length part.old) }
{
    part.fill(b' ');
}
