// The line of an answer.
ghost use Rattle.std.specs.Prelude.{◌≡◌, [], ◌∷◌, ◌++◌, if◌then◌else◌, OnOk};
ghost use Rattle.std.specs.List.{flat_map};
ghost use Rattle.requests.specs.Answers.{answer_text, group_text, sample_text, word_field};
ghost use Rattle.requests.specs.Lines.{trim};

use crate::lines::{after, trimmed};
use crate::push::{push_blank, push_cell, push_columns, push_field};
use crate::word::Word;
use compare::sample::Sample;
use std::alloc::AllocError;
use terms::cell::Cell;

// What an answer's columns hold; what is absent is blank.
#[derive(Clone, Copy)]
pub struct AnswerLine {
    pub word: Option<Word>,
    pub refusal: u32,
    pub first: Option<u64>,
    pub second: Option<u64>,
    pub sample: Option<Sample>,
}

// A cell of a sample in ten columns, blank where there is no cell.
fn push_group(out: &mut Vec<u8>, cell: Cell) -> Result<(), AllocError>
    ensures { OnOk result (out.new.items ≡ out.old.items ++ group_text cell) }
{
    if cell.letter == b' ' {
        push_blank(out, 10)
    } else {
        push_cell(out, cell)
    }
}

fn push_groups(out: &mut Vec<u8>, cells: &[Cell]) -> Result<(), AllocError>
    ensures { OnOk result (out.new.items ≡ out.old.items ++ flat_map group_text cells.now) }
{
    for cell in cells {
        push_group(out, *cell)?;
    }
    Ok(())
}

// A plus if more cells follow.
fn push_mark(out: &mut Vec<u8>, more: bool) -> Result<(), AllocError>
    ensures { OnOk result (out.new.items ≡ out.old.items ++ (if more then 43 ∷ [] else [])) }
{
    if more {
        out.push(b'+')?;
    }
    Ok(())
}

fn push_sample(out: &mut Vec<u8>, sample: Option<Sample>) -> Result<(), AllocError>
    ensures { OnOk result (out.new.items ≡ out.old.items ++ sample_text sample) }
{
    if let Some(sample) = sample {
        push_groups(out, &sample.cells)?;
        push_mark(out, sample.more)?;
    }
    Ok(())
}

fn push_word(out: &mut Vec<u8>, word: Option<Word>) -> Result<(), AllocError>
    ensures { OnOk result (out.new.items ≡ out.old.items ++ word_field word) }
{
    match word {
        Some(word) => out.extend_from_slice(&word.bytes()),
        None => push_blank(out, 8),
    }
}

// The answer's columns, with the blanks at their end.
fn push_answer(out: &mut Vec<u8>, line: &AnswerLine) -> Result<(), AllocError>
    ensures { OnOk result (out.new.items ≡ out.old.items ++ answer_text line.now) }
{
    push_word(out, line.word)?;
    push_columns(out, 7, line.refusal as u64)?;
    push_field(out, 7, line.first)?;
    push_field(out, 11, line.second)?;
    push_sample(out, line.sample)?;
    Ok(())
}

// Writes the answer's line after what is there: without the blanks at its end, and with a newline.
pub fn write_answer(line: &AnswerLine, out: &mut Vec<u8>) -> Result<(), AllocError>
    ensures { OnOk result (out.new.items ≡ out.old.items ++ (trim (answer_text line.now) ++ (10 ∷ []))) }
{
    let from = out.len();
    push_answer(out, line)?;
    let len = trimmed(after(out, from)).len();
    out.truncate(from + len);
    out.push(b'\n')?;
    Ok(())
}
