//! The device.
use crate::fault::Fault;
use crate::program::{DEVICE_ID, EVENT_ID, SPI};
use crate::signals::Signals;
use gic_msi::{message, send_msi};
use port_seq::{CorePort as Port, Key, key_of};
use std::sync::Wait;
use vm_threads::{TakesTurns, can_call};

/// A device that, once its doorbell is rung, sends a message to the ITS and raises its SPI.
#[derive(Drop)]
pub struct Device {
    sent: bool,
}

impl Device {
    pub fn new() -> Self {
        Device { sent: false }
    }
}

impl TakesTurns<Signals, Fault> for Device {
    /// Once its doorbell is rung it sends its message to the ITS, and raises its SPI.
    #[tactic(auto, using(crate::proofs::TurnLemmas::same_after, crate::proofs::TurnLemmas::same_twice, crate::proofs::TurnLemmas::same_here, crate::proofs::TurnLemmas::rests_device))]
    fn turn<P: Port, R: Wait>(
        &mut self,
        rt: &R,
        port: &mut P,
        signals: &Signals,
    ) -> Result<(), Fault> {
        let shape = port.shape();
        let has_both = shape.lpis != 0 && key_of(SPI, 0, &shape) == Some(Key::Spi(SPI));
        if !can_call(port) || !has_both {
            return Err(Fault::NotAtRest);
        }
        if !self.sent && signals.is_rung() {
            send_msi(rt, port, DEVICE_ID, EVENT_ID);
            message(port, SPI);
            self.sent = true;
        }
        Ok(())
    }

    /// Whether it has sent both.
    fn is_through(&self) -> bool {
        self.sent
    }
}
