// Receipts of calls.

/// What a call gives: how many items the history had in front of it, which is its place where it was accepted; whether it was; and
/// the reply. The history of a core begins with its opening, so places of a core count that: among the entries of the journal, of which
/// `receipt_of` speaks in contracts, the place is one less.
#[derive(Drop)]
pub struct Receipt<R> {
    pub place: u64,
    pub accepted: bool,
    pub reply: R,
}
