// The answer lines of a sheet.
ghost use Rattle.std.specs.Prelude.{◌≡◌, map, IfOk};
ghost use Rattle.std.specs.Option.{option_map};
ghost use Rattle.requests.specs.Layout.{asked_of};
ghost use Rattle.sheets.specs.Answers.{answer_lines};

use crate::told::{NOT_LAID, answer_line};
use compare::sample::Sample;
use requests::answer::write_answer;
use requests::request::Request;
use runs::call::Answer;
use std::alloc::{AllocError, Global};

// A line for each line of the sheet, with the answers in their order.
pub fn write_lines(
    heap: Global,
    lines: &[Option<Request>],
    answers: &[Answer],
    samples: &[Sample],
) -> Result<Vec<u8>, AllocError>
    ensures { IfOk result (λ v. v.items ≡ answer_lines (map (option_map asked_of) lines.now) answers.now samples.now) }
{
    let mut out = Vec::new(heap);
    // two iterators, since the contract of their `zip` is silent on what it has left at its end
    let mut answers = answers.iter();
    let mut samples = samples.iter();
    for line in lines {
        match line {
            None => write_answer(&NOT_LAID, &mut out)?,
            Some(request) => {
                if let Some((answer, sample)) = answers.next().zip(samples.next()) {
                    let told = answer_line(request.word(), *answer, *sample);
                    write_answer(&told, &mut out)?;
                }
            }
        }
    }
    Ok(out)
}
