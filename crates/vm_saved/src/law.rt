//! What holds of all that is saved of machines.
ghost use Rattle.vm_saved.specs.Back.{SavesReadBack};

/// A law of every machine that can be saved: its image tells its guest, but for the number of a fault by which nothing is stalled, and what its registers
/// keep that tell where the guest has its queue and tables.
pub fn saves_read_back()
    ensures { SavesReadBack }
{}
