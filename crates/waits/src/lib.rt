#![tactic(auto)]

// A wait of the record: ticks up to the first that changes IRQ, WDO, an event's flag or WIP, or all of them. Ticks in which only counts move are taken at once.
pub mod jump; // jump.rt: ticks in which only counts move
pub mod wait; // wait.rt: the wait
