// Answers as lines.
ghost use Rattle.std.specs.Prelude.{◌≡◌};
ghost use Rattle.std.specs.Option.{option_map};
ghost use Rattle.stores.specs.Means.{count_of};
ghost use Rattle.sheets.specs.Answers.{granted as granted_line, holder, line_of, refused as refused_line};

use compare::sample::Sample;
use manager::fault::ManagerFault;
use refusals::{Fault, Refusal};
use requests::answer::AnswerLine;
use requests::word::Word;
use runs::call::Answer;
use stores::count::Count;

// The answer to a line that is not laid out.
pub const NOT_LAID: AnswerLine = AnswerLine {
    word: None,
    refusal: 44,
    first: None,
    second: None,
    sample: None,
};

fn granted(word: Word, first: Option<u64>, second: Option<u64>) -> AnswerLine
    ensures { result ≡ granted_line word first second }
{
    AnswerLine {
        word: Some(word),
        refusal: 0,
        first,
        second,
        sample: None,
    }
}

// The transaction and the reservation that a reserve collides with. No conversion of types: one part is taken from one fault.
fn holder_of(fault: ManagerFault) -> Option<(u32, u32)>
    ensures { result ≡ holder fault }
{
    match fault {
        ManagerFault::Conflict {
            transaction,
            reservation,
        } => Some((transaction, reservation)),
        _ => None,
    }
}

// The next two are no impls of `From`: Option and the numbers are types of std.
fn widened(place: Option<usize>) -> Option<u64>
    ensures { result ≡ place }
{
    place.map(|place| place as u64)
}

fn counted(found: Option<Count>) -> Option<u64>
    ensures { result ≡ option_map count_of found }
{
    found.map(|count| u64::from(count.value))
}

fn refused(word: Word, refusal: Refusal, holder: Option<(u32, u32)>, sample: Sample) -> AnswerLine
    ensures { result ≡ refused_line word refusal holder sample }
{
    let line = AnswerLine {
        word: Some(word),
        refusal: u32::from(refusal.number),
        first: widened(refusal.place),
        second: None,
        sample: None,
    };
    match holder {
        Some((transaction, reservation)) => AnswerLine {
            first: Some(u64::from(transaction)),
            second: Some(u64::from(reservation)),
            sample: Some(sample),
            ..line
        },
        None => line,
    }
}

// The line of an answer.
pub fn answer_line(word: Word, answer: Answer, sample: Sample) -> AnswerLine
    ensures { result ≡ line_of word answer sample }
{
    match answer {
        Answer::Refused(fault) => refused(word, fault.refusal(), holder_of(fault), sample),
        Answer::Number(number) => granted(word, Some(u64::from(number)), None),
        Answer::Found(found) => granted(word, counted(found), None),
        Answer::Figures(rows, total) => granted(word, Some(u64::from(rows)), Some(total)),
        Answer::Done => granted(word, None, None),
        Answer::Tally(number) => granted(word, None, Some(u64::from(number))),
    }
}
