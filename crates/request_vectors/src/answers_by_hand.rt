// Lines of answers by hand.
use compare::sample::Sample;
use requests::answer::{AnswerLine, write_answer};
use requests::word::Word;
use std::alloc::{AllocError, Global};
use std::test::Fail;
use terms::cell::{BLANK, Cell};

const SILENT: AnswerLine = AnswerLine {
    word: None,
    refusal: 0,
    first: None,
    second: None,
    sample: None,
};

fn line(heap: Global, answer: AnswerLine) -> Result<Vec<u8>, AllocError> {
    let mut out = Vec::new(heap);
    write_answer(&answer, &mut out)?;
    Ok(out)
}

#[test]
fn answers(rt: HostRuntime) -> Result<(), Fail> {
    let begin = AnswerLine {
        word: Some(Word::Begin),
        first: Some(1),
        ..SILENT
    };
    let bad = AnswerLine {
        refusal: 44,
        ..SILENT
    };
    let tally = AnswerLine {
        word: Some(Word::Tally),
        second: Some(12),
        ..SILENT
    };
    let survey = AnswerLine {
        word: Some(Word::Survey),
        first: Some(4096),
        second: Some(4_095_995_904),
        ..SILENT
    };
    for (answer, text) in [
        (begin, "begin         0      1\n"),
        (bad, "             44\n"),
        (tally, "tally         0                12\n"),
        (survey, "survey        0   4096 4095995904\n"),
    ] {
        assert!(rt;
            line(rt.alloc(), answer)?.as_slice() == text.as_bytes(),
            "{text}"
        );
    }
    Ok(())
}

#[test]
fn samples(rt: HostRuntime) -> Result<(), Fail> {
    let symbol = Cell {
        letter: b'S',
        number: 0,
    };
    let mut cells = [BLANK; 12];
    cells[0] = symbol;
    let short = Sample { cells, more: false };
    let long = Sample {
        cells: [symbol; 12],
        more: true,
    };
    let conflict = |sample| AnswerLine {
        word: Some(Word::Reserve),
        refusal: 30,
        first: Some(2),
        second: Some(7),
        sample: Some(sample),
    };
    let out = line(rt.alloc(), conflict(short))?;
    let text = "reserve      30      2          7S        0\n";
    assert!(rt; out.as_slice() == text.as_bytes());
    let out = line(rt.alloc(), conflict(long))?;
    assert_eq!(rt; out.len(), 33 + 120 + 2);
    assert!(rt; out.as_slice().ends_with(b"S        0+\n"));
    Ok(())
}
