//! The numbers that a hall is made with.

/// How many seats, conditions and flags a hall has, and how many events each seat may make.
#[derive(Clone, Copy)]
pub struct Numbers {
    pub seats: u8,
    pub conds: u8,
    pub flags: u8,
    pub budget: u32,
}
