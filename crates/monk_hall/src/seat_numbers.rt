use std::mem::size_of;

/// What a token keeps of its seat: which it is, how often it was called, and how many events it may make.
///
/// The fields lie in memory in the order in which they are written. The last two only fill the gap up to 16 bytes,
/// and are 0. Without them each move of a token copies bytes that no field has written, in words that overlap. Then a
/// visit takes nearly twice the time.
#[derive(Clone, Copy)]
pub struct SeatNumbers {
    pub(crate) calls: u64,
    pub(crate) budget: u32,
    pub(crate) seat: u8,
    pub(crate) gap_byte: u8,
    pub(crate) gap_pair: u16,
}

/// The bytes of its fields.
const FIELDS: usize = size_of::<u64>() + size_of::<u32>() + 2 * size_of::<u8>() + size_of::<u16>();

// It has no gap (`no_gaps`).
const _: () = prove!(size_of::<SeatNumbers>() == FIELDS);
