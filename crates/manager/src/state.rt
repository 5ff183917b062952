ghost use Rattle.std.specs.Prelude.{◌+◌, ◌≤◌};

use rolls::roll::Roll;
use terms::signature::Signature;

// What a manager keeps between calls, besides the memory of its rolls, which the caller brings to every call: so what both hold together
// (`Well`, `Sizes`) stands in the calls' clauses, and no struct of both is made here.
// Each commit ends a transaction, so commit numbers need no limit of their own.
#[derive(Drop)]
pub struct Manager<K> {
    pub(crate) kind: K,
    pub(crate) signature: Signature,
    pub(crate) transactions: Roll,
    pub(crate) reservations: Roll,
    pub(crate) changes: Roll,
    pub(crate) last_transaction: u32,
    pub(crate) last_reservation: u32,
    pub(crate) last_commit: u32,
    pub(crate) tally: u32,
    ghost few: { transactions.len ≤ 16 },
    ghost some: { reservations.len ≤ 64 },
    ghost many: { changes.len ≤ 128 },
    ghost ended: { last_commit + transactions.len ≤ last_transaction },
    ghost begun: { last_transaction ≤ 999999 },
    ghost reserved: { last_reservation ≤ 999999 },
    ghost tallied: { tally ≤ 999999999 },
}
