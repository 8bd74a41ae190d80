// What passes know. No value of these types is made.
use std::collections::LinkedList;

/// What is known of a worker: its number, the entries that it has added, the part that it left last, and all entries that stood there
/// when it left last.
pub struct Hand<E, P> {
    pub number: u64,
    pub entries: LinkedList<E>,
    pub part: P,
    pub left: LinkedList<E>,
}

/// Where a pass stands. One that is holding knows the entries and the parts that it found.
pub enum Phase<E, P> {
    Idle,
    Waiting,
    Holding(LinkedList<E>, LinkedList<P>),
}

/// What a pass knows: where it stands, the ticket that it drew last, a number without a bound, and its hands, of which the first is its
/// own and each other one is of its stock.
pub struct View<E, P> {
    pub phase: Phase<E, P>,
    pub ticket: u64,
    pub hands: LinkedList<Hand<E, P>>,
}
