//! What is fixed when a hall is made, as contracts see it.
use std::collections::LinkedList;

/// The object's opening state and the hall's numbers. It is for contracts: no value of it is made.
pub struct Setting {
    pub opening: LinkedList<u64>,
    pub seats: u8,
    pub conds: u8,
    pub budget: u32,
}
