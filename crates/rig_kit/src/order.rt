//! In which order numbers come.

/// In which order things come that have numbers.
#[derive(Clone, Copy)]
pub enum Order {
    /// The lowest number first.
    Ascending,
    /// The highest number first.
    Descending,
    /// Neighbours far from each other.
    Scattered,
}

impl Order {
    /// What it is called.
    pub fn name(self) -> &'static str {
        match self {
            Order::Ascending => "in order",
            Order::Descending => "in reverse",
            Order::Scattered => "in no order",
        }
    }

    /// The number that comes at a turn, where there are so many.
    pub fn number(self, turn: u64, count: u64) -> u64 {
        match self {
            Order::Ascending => turn,
            Order::Descending => count.saturating_sub(turn).saturating_sub(1),
            Order::Scattered => scattered(turn, count),
        }
    }
}

/// The number that comes at a turn: each of so many comes once, and neighbours are far from each other.
pub fn scattered(turn: u64, count: u64) -> u64 {
    // 61,803 and a power of ten times eight have no common divisor.
    turn.wrapping_mul(61_803).checked_rem(count).unwrap_or(0)
}
