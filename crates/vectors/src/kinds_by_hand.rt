use crate::made::condition;
use kinds::bank::{ALL_KINDS, Bank};
use kinds::class::Class;
use kinds::common::{Value, smallest_value};
use kinds::condition::Condition;
use kinds::hour::Hour;
use kinds::kind::Kind;
use kinds::number::Number;
use std::process::Abort;

// The letters of conditions under a kind.
fn check_letters<K: Kind>(rt: &impl Abort, kind: &K, wanted: &[(Condition, Option<u8>)]) {
    for (condition, letter) in wanted {
        assert_eq!(rt; kind.letter(*condition), *letter, "{condition:?}");
    }
}

// The next codes of conditions from a code on, under a kind.
fn check_next<K: Kind>(rt: &impl Abort, kind: &K, wanted: &[(Condition, u32, Option<u32>)]) {
    for (condition, from, next) in wanted {
        assert_eq!(rt;
            kind.next(*condition, *from),
            *next,
            "{condition:?} from {from}"
        );
    }
}

#[test]
fn number_tops_and_forms(rt: HostRuntime) {
    assert_eq!(rt; Number.top(b'N'), Some(999_999_999));
    assert_eq!(rt; Number.top(b'H'), None);
    assert!(rt; Number.admits(b'N', 999_999_999));
    assert!(rt; !Number.admits(b'N', 1_000_000_000));
    check_letters(
        &rt,
        &Number,
        &[
            (condition(b'B', 999_999_999, 0), Some(b'N')),
            (condition(b'B', 0, 1_000_000_000), None),
            (condition(b'X', 3, 0), Some(b'N')),
            (condition(b'X', 3, 1), None),
            (condition(b'W', 3, 1), None),
        ],
    );
}

#[test]
fn number_next(rt: HostRuntime) {
    check_next(
        &rt,
        &Number,
        &[
            (condition(b'B', 1, 5), 0, Some(1)),
            (condition(b'B', 1, 5), 5, Some(5)),
            (condition(b'B', 1, 5), 6, None),
            (condition(b'B', 5, 1), 0, None),
            (condition(b'X', 3, 0), 3, Some(4)),
            (condition(b'X', 999_999_999, 0), 999_999_999, None),
            (condition(b'X', 0, 0), 4_294_967_295, None),
        ],
    );
}

#[test]
fn hours(rt: HostRuntime) {
    assert_eq!(rt; Hour.top(b'H'), Some(167));
    assert!(rt; !Hour.admits(b'H', 168));
    check_next(
        &rt,
        &Hour,
        &[
            (condition(b'W', 31, 128), 8, Some(31)),
            (condition(b'W', 31, 128), 104, None),
            (condition(b'W', 64, 8_388_608), 0, Some(167)),
            (condition(b'W', 64, 8_388_608), 168, None),
            (condition(b'W', 0, 16_777_215), 0, None),
        ],
    );
    check_letters(
        &rt,
        &Hour,
        &[
            (condition(b'W', 128, 1), None),
            (condition(b'W', 127, 16_777_216), None),
        ],
    );
}

#[test]
fn classes(rt: HostRuntime) {
    assert_eq!(rt; Class.top(b'C'), Some(23));
    assert!(rt; !Class.admits(b'C', 24));
    check_next(
        &rt,
        &Class,
        &[
            (condition(b'M', 8_388_608, 0), 0, Some(23)),
            (condition(b'M', 8_388_608, 0), 24, None),
            (condition(b'M', 5, 0), 1, Some(2)),
            (condition(b'M', 0, 0), 0, None),
        ],
    );
    check_letters(
        &rt,
        &Class,
        &[
            (condition(b'M', 16_777_216, 0), None),
            (condition(b'M', 1, 1), None),
        ],
    );
}

// A kind that stands twice is known by its first part alone.
#[test]
fn banks(rt: HostRuntime) {
    let twice = Bank {
        first: Hour,
        second: Hour,
    };
    check_next(&rt, &twice, &[(condition(b'W', 1, 1), 0, Some(0))]);
    for (letter, top) in [(b'C', Some(23)), (b'S', None), (b'V', None)] {
        assert_eq!(rt; ALL_KINDS.top(letter), top, "{letter}");
    }
    check_letters(
        &rt,
        &ALL_KINDS,
        &[
            (condition(b'M', 1, 0), Some(b'C')),
            (condition(b'Q', 1, 0), None),
        ],
    );
}

#[test]
fn smallest_values(rt: HostRuntime) {
    let between = condition(b'B', 1, 2);
    let not_one = condition(b'X', 1, 0);
    let not_two = condition(b'X', 2, 0);
    let two = Value {
        letter: b'N',
        code: 2,
    };
    let smallest = |first, rest: &[Condition]| smallest_value(&ALL_KINDS, first, rest);
    assert_eq!(rt; smallest(between, &[not_one]), Some(two));
    assert_eq!(rt; smallest(between, &[not_one, not_two]), None);
    assert_eq!(rt; smallest(between, &[condition(b'M', 6, 0)]), None);
    assert_eq!(rt; smallest(condition(b'Q', 0, 0), &[]), None);
}
