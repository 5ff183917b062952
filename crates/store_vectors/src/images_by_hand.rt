use image::open::open;
use kinds::bank::ALL_KINDS;
use refusals::Fault;
use std::alloc::AllocError;
use std::test::Fail;

const LINE: usize = 128;

// S3 N1 with the count 5.
const ROW: &[u8; 20] = b"S        3N        1";

// Symbol 2 has two arguments and symbol 3 one. Each crate of vectors shows its own arities.
fn arities() -> [u8; 32] {
    let mut arities = [0; 32];
    arities[2] = 2;
    arities[3] = 1;
    arities
}

// The number, line and field of a refusal, 0 for what there is not.
fn refusal_under(arities: &[u8; 32], image: &mut [u8]) -> (u8, usize, usize) {
    match open(&ALL_KINDS, arities, image) {
        Ok(_) => (0, 0, 0),
        Err(fault) => {
            let refusal = fault.refusal();
            (
                refusal.number,
                refusal.place.unwrap_or(0),
                refusal.field.unwrap_or(0),
            )
        }
    }
}

fn refusal(image: &mut [u8]) -> (u8, usize, usize) {
    refusal_under(&arities(), image)
}

// Writes bytes from a place on, as far as the image goes.
fn write(image: &mut [u8], at: usize, bytes: &[u8]) {
    for (place, byte) in image.iter_mut().skip(at).zip(bytes) {
        *place = *byte;
    }
}

// Two lines: the row, and a free one.
fn two_lines() -> [u8; 256] {
    let mut image = [b' '; 256];
    write(&mut image, 0, ROW);
    write(&mut image, 126, b"5\n");
    write(&mut image, 255, b"\n");
    image
}

// The refusal of the two lines with this text at this place.
fn damaged(at: usize, text: &str) -> (u8, usize, usize) {
    let mut image = two_lines();
    write(&mut image, at, text.as_bytes());
    refusal(&mut image)
}

#[test]
fn each_field(rt: HostRuntime) {
    // by number: the twelve fields are places in a line, and no list has them
    for field in 0..12usize {
        assert_eq!(rt; damaged(field * 10, "v"), (41, 0, field + 1));
        assert_eq!(rt; damaged(LINE + field * 10, "v"), (41, 1, field + 1));
    }
    for (at, text, field) in [
        (120, "v", 13),
        (127, " ", 14),
        (126, "\r", 13),
        (0, "\0", 1),
    ] {
        assert_eq!(rt; damaged(at, text), (41, 0, field), "{text:?} at {at}");
    }
}

#[test]
fn rows_and_counts(rt: HostRuntime) {
    for (at, text, refusal) in [
        (0, "", (0, 0, 0)),
        (10, "N000000001", (41, 0, 2)),
        (10, "V        0", (41, 0, 2)),
        (10, "N         ", (41, 0, 2)),
        (10, "H      168", (41, 0, 2)),
        (0, "S        2", (41, 0, 3)),
        (0, "S       32", (41, 0, 1)),
        (120, " 999999", (0, 0, 0)),
        (120, "1000000", (41, 0, 13)),
        (120, "0000005", (41, 0, 13)),
        (120, "       ", (41, 0, 13)),
        (LINE + 120, "      5", (41, 1, 13)),
    ] {
        assert_eq!(rt; damaged(at, text), refusal, "{text:?} at {at}");
    }
}

#[test]
fn a_row_twice(rt: HostRuntime) {
    let mut image = two_lines();
    write(&mut image, LINE, ROW);
    write(&mut image, LINE + 120, b"      7");
    assert_eq!(rt; refusal(&mut image), (42, 1, 0));
    write(&mut image, LINE + 10, b"N        2");
    assert_eq!(rt; refusal(&mut image), (0, 0, 0));
}

// The refusal's number of the first bytes of the two lines, under these arities.
fn cut(len: usize, arities: &[u8; 32]) -> Option<u8> {
    let mut image = two_lines();
    let (number, _, _) = refusal_under(arities, image.get_mut(..len)?);
    Some(number)
}

#[test]
fn lengths(rt: HostRuntime) {
    for (len, number) in [(0, 40), (127, 40), (128, 0), (129, 40)] {
        assert_eq!(rt; cut(len, &arities()), Some(number), "{len}");
    }
}

#[test]
fn the_signature_after_the_length(rt: HostRuntime) {
    let mut arities = arities();
    arities[5] = 8;
    assert_eq!(rt; cut(127, &arities), Some(40));
    assert_eq!(rt; cut(128, &arities), Some(19));
}

// The refusal of so many free lines.
fn free_lines(rt: &HostRuntime, count: usize) -> Result<u8, AllocError> {
    let mut image = vec![in rt.alloc(); b' '; 4097 * LINE]?;
    for line in image.as_mut_slice().as_chunks_mut::<LINE>().0 {
        line[LINE - 1] = b'\n';
    }
    image.truncate(count.saturating_mul(LINE));
    Ok(refusal(image.as_mut_slice()).0)
}

#[test]
fn the_longest(rt: HostRuntime) -> Result<(), Fail> {
    assert_eq!(rt; free_lines(&rt, 4096)?, 0);
    assert_eq!(rt; free_lines(&rt, 4097)?, 40);
    Ok(())
}
