// Numbers in columns: decimal, right-justified, without leading zeros.
ghost use Rattle.std.specs.Prelude.{◌≡◌, ◌+◌, ◌*◌, ◌/◌, ◌%◌, ◌^◌, ◌<◌, ◌≤◌, map, length, decimal, Decides, MatchOption};
ghost use Rattle.std.specs.Int.Digits.{number_from_digits as number_of};
ghost use Rattle.columns.specs.Columns.{columns, Reads, Writes};
ghost use Rattle.columns.specs.Steps.{mark, worth};

// The columns are too few for what is to be written.
#[derive(Clone, Copy, PartialEq, Eq, Debug)]
pub struct NoRoom;

// The digit that ends what is left of a number, or a space where nothing is left.
fn mark_of(rest: u32) -> u8
    ensures { result ≡ mark rest }
{
    if rest == 0 {
        b' '
    } else {
        b'0' + (rest % 10) as u8
    }
}

// How many digits a number has.
fn width_of(n: u32) -> usize
    ensures value { result ≡ length (decimal n) }
    ensures some { 0 < result }
{
    let mut rest = n / 10;
    let mut width: usize = 1;
    while rest > 0 {
        rest /= 10;
        width += 1;
    }
    width
}

// Writes a number to the right, after spaces; refused where it has more digits than there are columns.
// Column by column, here and where it is read: a list of the digits, lent or handed on, took more than twice the time.
pub fn write_number(n: u32, part: &mut [u8]) -> Result<(), NoRoom>
    ensures { Writes (decimal n) part.old part.new result }
{
    if part.len() < width_of(n) {
        return Err(NoRoom);
    }
    let mut i = part.len() - 1;
    part[i] = b'0' + (n % 10) as u8;
    let mut rest = n / 10;
    while i > 0 {
        i -= 1;
        part[i] = mark_of(rest);
        rest /= 10;
    }
    Ok(())
}

// Whether the columns show the number.
fn shows(n: u32, part: &[u8]) -> bool
    ensures { Decides result (part.now ≡ columns (length part.now) n) }
{
    if part.len() < width_of(n) {
        return false;
    }
    let mut i = part.len() - 1;
    if part[i] != b'0' + (n % 10) as u8 {
        return false;
    }
    let mut rest = n / 10;
    while i > 0 {
        i -= 1;
        if part[i] != mark_of(rest) {
            return false;
        }
        rest /= 10;
    }
    true
}

// What a digit is worth; any other byte is worth nothing. No `From`: of bytes it would hold everywhere.
fn worth_of(b: u8) -> u32
    ensures { result ≡ worth b }
{
    match b {
        b'0'..=b'9' => u32::from(b - b'0'),
        _ => 0,
    }
}

// The number that the digits write, whatever else stands between them; absent where it is too large.
fn loose(part: &[u8]) -> Option<u32>
    ensures { MatchOption result (2 ^ 32 ≤ number_of 10 (map worth part.now)) (λ n. n ≡ number_of 10 (map worth part.now)) }
{
    let mut n: u32 = 0;
    for b in part {
        n = n.checked_mul(10)?.checked_add(worth_of(*b))?;
    }
    Some(n)
}

// The number below 4,294,967,296 that the columns show, or absent where they show none.
pub fn read_number(part: &[u8]) -> Option<u32>
    ensures { Reads part.now result }
{
    let n = loose(part)?;
    shows(n, part).then_some(n)
}
