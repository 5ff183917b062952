// What a store keeps.
use crate::count::Count;
use terms::row::Row;

// A row with its count.
#[derive(Clone, Copy)]
pub struct Entry {
    pub key: Row,
    pub count: Count,
}

// A place of a table: free, or in use.
pub type Record = Option<Entry>;

// The numbers of places and of rows.
#[derive(Clone, Copy, PartialEq, Eq, Debug)]
pub struct Size {
    pub places: usize,
    pub rows: usize,
}
