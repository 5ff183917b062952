// Lines of requests by hand.
use requests::read::read_request;
use requests::request::Request;
use requests::write::write_request;
use std::alloc::{AllocError, Global};
use std::test::Fail;
use terms::cell::Cell;

fn is_request(heap: Global, line: &str) -> Result<bool, AllocError> {
    Ok(read_request(heap, line.as_bytes())?.is_some())
}

// The line that is written of what was read.
fn again(heap: Global, line: &str) -> Result<Vec<u8>, AllocError> {
    let mut out = Vec::new(heap);
    if let Some(request) = read_request(heap, line.as_bytes())? {
        write_request(&request, &mut out)?;
    }
    Ok(out)
}

fn cell(letter: u8, number: u32) -> Cell {
    Cell { letter, number }
}

#[test]
fn a_begin(rt: HostRuntime) -> Result<(), Fail> {
    let Some(Request::Begin { planner }) = read_request(rt.alloc(), b"begin         1")? else {
        return Err(Fail::new("no begin"));
    };
    assert_eq!(rt; planner, 1);
    Ok(())
}

#[test]
fn a_reserve(rt: HostRuntime) -> Result<(), Fail> {
    let line = b"reserve       1       WS        2V        0V        0";
    let Some(
        Request::Reserve {
            transaction,
            right,
            cells,
            constraints,
        },
    ) = read_request(rt.alloc(), line)?
    else {
        return Err(Fail::new("no reserve"));
    };
    assert_eq!(rt; transaction, 1);
    assert_eq!(rt; right, b'W');
    assert_eq!(rt; cells.len(), 3);
    assert_eq!(rt; cells.first().copied(), Some(cell(b'S', 2)));
    assert_eq!(rt; cells.get(2).copied(), Some(cell(b'V', 0)));
    assert_eq!(rt; constraints.len(), 0);
    Ok(())
}

#[test]
fn a_reserve_with_conditions(rt: HostRuntime) -> Result<(), Fail> {
    let line =
        b"reserve      12       RS        2V        0N        3W        0        31       384X        0        17         0";
    let Some(
        Request::Reserve {
            cells,
            constraints,
            ..
        },
    ) = read_request(rt.alloc(), line)?
    else {
        return Err(Fail::new("no reserve"));
    };
    assert_eq!(rt; cells.len(), 3);
    let [first, second] = constraints.as_slice() else {
        return Err(Fail::new("not two conditions"));
    };
    assert_eq!(rt; first.condition.form, b'W');
    assert_eq!(rt; first.condition.a, 31);
    assert_eq!(rt; first.condition.b, 384);
    assert_eq!(rt; second.condition.form, b'X');
    assert_eq!(rt; second.condition.a, 17);
    Ok(())
}

#[test]
fn a_write(rt: HostRuntime) -> Result<(), Fail> {
    let line = b"write         1    250 S        2N        3N        3";
    let Some(
        Request::Write {
            transaction,
            cells,
            count,
        },
    ) = read_request(rt.alloc(), line)?
    else {
        return Err(Fail::new("no write"));
    };
    assert_eq!(rt; transaction, 1);
    assert_eq!(rt; count, 250);
    assert_eq!(rt; cells.len(), 3);
    Ok(())
}

#[test]
fn laid_out(rt: HostRuntime) -> Result<(), Fail> {
    for line in [
        "commit        1",
        "commit        1     ",
        "abandon       0",
        "tally",
        "survey  9999999      0",
        "look          1        S999999999",
        "strike        1",
        "reserve       1",
        "reserve       1       WS        0X        0         1         0",
    ] {
        assert!(rt; is_request(rt.alloc(), line)?, "{}", line);
    }
    Ok(())
}

// In turn: an empty line, an unknown word, a leading zero, a blank number, a number a column too early, an unused number, an
// unused right, a blank reservation, a newline, a cell after a condition, a condition in a row, one without b, a blank letter.
#[test]
fn not_laid_out(rt: HostRuntime) -> Result<(), Fail> {
    for line in [
        "",
        "Begin         1",
        "begin        01",
        "begin",
        "begin        1",
        "tally         1",
        "commit        1       W",
        "survey        1",
        "commit        1\n",
        "reserve       1       WS        0X        0         1         0N        3",
        "look          1        S        0X        0         1         0",
        "reserve       1       WS        0X        0         1",
        "reserve       1       W         5",
    ] {
        assert!(rt; !is_request(rt.alloc(), line)?, "{}", line);
    }
    Ok(())
}

#[test]
fn written_again(rt: HostRuntime) -> Result<(), Fail> {
    for line in [
        "write         1    250 S        2N        3N        3",
        "reserve      12       RS        0X        0        17         0",
    ] {
        assert!(rt;
            again(rt.alloc(), line)?.as_slice() == line.as_bytes(),
            "{}",
            line
        );
    }
    Ok(())
}
