// What a line asks, if it is laid out: nothing is checked here, since what is read is written again and compared.
ghost use Rattle.std.specs.Prelude.{◌≡◌, ℕ, ◌^◌, ◌<◌, ◌≤◌, List, length, IfOk, Some, slice_index_or};
ghost use Rattle.std.specs.List.{flat_map, AllByRecursion};
ghost use Rattle.columns.specs.Columns.{cell_text, columns, Short};
ghost use Rattle.requests.specs.Layout.{Ask, Shows, asked_of};
ghost use Rattle.requests.specs.Lines.{Alike, front};
ghost use Rattle.requests.specs.Steps.{ask_of, condition_of, conditions, split, start};
ghost use Rattle.serial.specs.History.{Call.reserve};

use crate::lines::{after, byte_at, front, trimmed};
use crate::request::Request;
use crate::word::Word;
use columns::cell::read_cell;
use columns::number::read_number;
use kinds::condition::Condition;
use std::alloc::{AllocError, Global};
use terms::cell::{BLANK, Cell};
use terms::constraint::Constraint;

// The number in the first seven columns.
fn number_in(line: &[u8]) -> u32
    ensures { (n : ℕ) → n < 10 ^ 7 → front 7 line.now ≡ columns 7 n → result ≡ n }
{
    read_number(&front::<7>(line)).unwrap_or(0)
}

// The group in the first ten columns.
fn group_in(line: &[u8]) -> Cell
    ensures { (c : Cell) → Short c → front 10 line.now ≡ cell_text c → result ≡ c }
{
    read_cell(&front::<10>(line)).unwrap_or(BLANK)
}

// The groups in a line.
fn groups_in(heap: Global, line: &[u8]) -> Result<Vec<Cell>, AllocError>
    ensures { IfOk result (λ v. (gs : List Cell) → AllByRecursion Short gs → Alike line.now (flat_map cell_text gs) → v.items ≡ gs) }
{
    // a loop, since a chain would have to say which group is read of columns that show none
    let mut groups = Vec::new(heap);
    for group in trimmed(line).chunks(10) {
        groups.push(group_in(group))?;
    }
    Ok(groups)
}

// Where the conditions begin: at the first group of which the next one has a blank letter.
fn conditions_start(groups: &[Cell]) -> usize
    ensures value { result ≡ start groups.now }
    ensures within { result ≤ length groups.now }
{
    groups
        .iter()
        .skip(1)
        .position(|group| group.letter == b' ')
        .unwrap_or(groups.len())
}

// The condition of three groups.
fn condition_of(groups: &[Cell; 3]) -> Constraint
    ensures { result ≡ condition_of (slice_index_or groups.now 0 BLANK) (slice_index_or groups.now 1 BLANK) (slice_index_or groups.now 2 BLANK) }
{
    let [form, a, b] = groups;
    Constraint {
        variable: form.number,
        condition: Condition {
            form: form.letter,
            a: a.number,
            b: b.number,
        },
    }
}

// The conditions in groups of three.
fn conditions_in(heap: Global, groups: &[Cell]) -> Result<Vec<Constraint>, AllocError>
    ensures { IfOk result (λ v. v.items ≡ conditions groups.now) }
{
    let (threes, _) = groups.as_chunks();
    threes.iter().map(condition_of).collect(heap)
}

// A reserve, of cells and then conditions.
fn reserve_in(
    heap: Global,
    transaction: u32,
    right: u8,
    groups: &[Cell],
) -> Result<Request, AllocError>
    ensures { IfOk result (λ v. asked_of v ≡ Some (reserve transaction right (split groups.now))) }
{
    let at = conditions_start(groups);
    Ok(Request::Reserve {
        transaction,
        right,
        cells: Vec::from_slice(heap, &groups[..at])?,
        constraints: conditions_in(heap, &groups[at..])?,
    })
}

// The request that begins with a word.
fn request_in(
    heap: Global,
    word: Word,
    first: u32,
    second: u32,
    right: u8,
    groups: Vec<Cell>,
) -> Result<Request, AllocError>
    ensures { IfOk result (λ v. asked_of v ≡ ask_of word first second right groups.items) }
{
    Ok(match word {
        Word::Begin => Request::Begin { planner: first },
        Word::Reserve => reserve_in(heap, first, right, &groups)?,
        Word::Look => Request::Look {
            transaction: first,
            cells: groups,
        },
        Word::Survey => Request::Survey {
            transaction: first,
            reservation: second,
        },
        Word::Write => Request::Write {
            transaction: first,
            cells: groups,
            count: second,
        },
        Word::Strike => Request::Strike {
            transaction: first,
            cells: groups,
        },
        Word::Commit => Request::Commit { transaction: first },
        Word::Abandon => Request::Abandon { transaction: first },
        Word::Tally => Request::Tally,
    })
}

// What the line asks, if it asks anything.
pub fn guess_request(heap: Global, line: &[u8]) -> Result<Request, AllocError>
    ensures { IfOk result (λ v. (a : Ask) → Shows line.now a → asked_of v ≡ a) }
{
    let groups = groups_in(heap, after(line, 23))?;
    let first = number_in(after(line, 8));
    let second = number_in(after(line, 15));
    request_in(
        heap,
        Word::guess(line),
        first,
        second,
        byte_at(line, 22),
        groups,
    )
}
