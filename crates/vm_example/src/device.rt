//! The devices of the board.

/// How long the timer waits.
const PERIOD: u32 = 3;

/// A timer that signals once it has waited for its period, until it is armed again.
#[derive(Clone, Copy)]
pub(crate) struct Timer {
    pub(crate) waited: u32,
}

impl Timer {
    /// The level of its wire.
    pub(crate) fn level(&self) -> bool {
        self.waited >= PERIOD
    }
}

/// A UART that holds a byte until it is read.
#[derive(Clone, Copy)]
pub(crate) struct Uart {
    pub(crate) holds: Option<u8>,
}

impl Uart {
    /// The level of its wire: it holds a byte.
    pub(crate) fn level(&self) -> bool {
        self.holds.is_some()
    }
}
