use refusals::Fault;
use std::test::Fail;
use stores::count::Count;
use stores::entry::Record;
use stores::store::Store;
use stores::table::Table;
use terms::cell::Cell;
use terms::row::Row;

// The row S3 Nn.
fn row(n: u32) -> Option<Row> {
    Row::new(&[
        Cell {
            letter: b'S',
            number: 3,
        },
        Cell {
            letter: b'N',
            number: n,
        },
    ])
}

fn put<S: Store>(store: &mut S, n: u32, count: u32) -> u8 {
    let Some(key) = row(n) else {
        return 99;
    };
    let Some(count) = Count::new(count) else {
        return 27;
    };
    match store.put(&key, count) {
        Ok(()) => 0,
        Err(fault) => fault.refusal().number,
    }
}

fn find<S: Store>(store: &S, n: u32) -> Option<u32> {
    Some(store.find(&row(n)?)?.value)
}

fn remove<S: Store>(store: &mut S, n: u32) -> bool {
    row(n).is_some_and(|key| store.remove(&key))
}

#[test]
fn a_table_fills_up(rt: HostRuntime) -> Result<(), Fail> {
    let mut records = [None; 2];
    let mut table = Table::new(&mut records)?;
    for (n, count, refusal) in [
        (1, 10, 0),
        (2, 999_999, 0),
        (3, 30, 31),
        (2, 1_000_000, 27),
        (1, 11, 0),
    ] {
        assert_eq!(rt; put(&mut table, n, count), refusal, "row {n}: {count}");
    }
    for (n, count) in [(1, Some(11)), (2, Some(999_999)), (3, None)] {
        assert_eq!(rt; find(&table, n), count, "row {n}");
    }
    assert!(rt; remove(&mut table, 1));
    assert!(rt; !remove(&mut table, 1));
    assert_eq!(rt; put(&mut table, 3, 30), 0);
    assert_eq!(rt; table.size().rows, 2);
    assert!(rt; table.row(1).is_some());
    assert!(rt; table.row(2).is_none());
    Ok(())
}

#[test]
fn lengths(rt: HostRuntime) {
    let mut none: [Record; 0] = [];
    assert!(rt; Table::new(&mut none).is_err());
    let mut many = [None; 4097];
    assert!(rt; Table::new(&mut many).is_err());
    assert!(rt; Table::new(&mut many[0..4096]).is_ok());
}
