//! Laws of the LPIs that the maps of an ITS give no vCPU, under the eager controller.
ghost use Rattle.law_unmapped_lpis.specs.Laws.{CommandsLeaveNone, AccessesLeaveNone, DevicesLeaveNone};
ghost use Rattle.law_unmapped_lpis.specs.Worked.{UnmappedIsForNone};

/// A law of the next command of the queue of a sound guest: where each LPI that the maps give no vCPU is for no vCPU, it is so
/// again after the command, whether that is done or has a fault.
pub fn commands_leave_none()
    ensures { CommandsLeaveNone }
{}

/// A law of every operation of a vCPU in a sound guest, with all commands that it starts: what held of the LPIs that the maps give
/// no vCPU holds again after it.
pub fn accesses_leave_none()
    ensures { AccessesLeaveNone }
{}

/// A law of every message, wire and message-signalled interrupt of a device in a sound guest: what held of the LPIs that the maps
/// give no vCPU holds again after it.
pub fn devices_leave_none()
    ensures { DevicesLeaveNone }
{}

/// A law of a worked guest: an LPI that is mapped to a collection of vCPU 0 is for that vCPU, and for none after a MAPC that unmaps
/// the collection, though its event still has it.
pub fn unmapped_is_for_none()
    ensures { UnmappedIsForNone }
{}
