use ledger::entry::{PendingChange, Reservation, Transaction};

// The memory of the rolls, which the caller brings to every call: 16, 64 and 128 places. Lent, so that a caller may keep it where it likes.
#[derive(Drop)]
pub struct Memory<'a> {
    pub transactions: &'a mut [Transaction],
    pub reservations: &'a mut [Reservation],
    pub changes: &'a mut [PendingChange],
}
