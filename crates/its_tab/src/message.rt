//! Message-signalled interrupts.
ghost use Rattle.std.specs.Prelude.{◌≡◌};
ghost use Rattle.its_tab.specs.Message.{translated as translated_in};

use crate::fault::is_past;
use crate::tables::ItsTables;

impl ItsTables {
    /// The INTID of the LPI that a message of a device with an EventID becomes, where `enabled` is
    /// GITS_CTLR.Enabled. None exactly where the ITS is disabled, the device is not mapped, the EventID is not
    /// below 2 to the device's EventID bits or not mapped, or the event's collection is not mapped: then nothing
    /// happens. A stalled queue does not stop messages (own choice).
    pub fn translated(&self, enabled: bool, device: u32, event: u32) -> Option<u32>
        ensures { result ≡ translated_in self.now enabled device event }
    {
        let bits = self.bits_of(device)?;
        if !enabled || is_past(event, bits) {
            return None;
        }
        let (id, icid) = self.find(device, event)?;
        self.target_of(icid).map(|_| id)
    }
}
