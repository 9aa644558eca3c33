//! Laws of parts that are told with what they found.
ghost use Rattle.law_found_parts_are_calls.specs.Found.{FoundPartsAreCalls, FoundRunsAreEager};
ghost use Rattle.law_found_parts_are_calls.specs.Worked.{WorkedPartsAreFound};
ghost use Rattle.law_found_parts_are_calls.specs.WorkedCommand.{WorkedCommandIsFound};

/// A law of every proper run of a good guest whose parts so far are their calls: a part that follows, of which its actor's port
/// tells what it found, is its call; where it takes the ITS, with the LPIs that the maps give no vCPU for none as it begins.
pub fn found_parts_are_calls()
    ensures { FoundPartsAreCalls }
{}

/// A law of every proper run of a good guest in which each part ends before the next one begins, and of which its actor's port
/// tells what it found: where each part is for an operation that its actor can ask for, and, as a part for an access of a CPU
/// interface begins, each vCPU is at ease, the parts are their calls and meet all that `serial_runs_are_eager` asks. So the guest
/// with all that stands at interfaces taken back goes on as the eager controller's, and each part answers what that answers.
pub fn found_runs_are_eager()
    ensures { FoundRunsAreEager }
{}

/// A worked run that meets the premises of `found_runs_are_eager`: a vCPU enters, a device makes SPI 40 pending, and the vCPU
/// leaves and enters, acknowledges the SPI, ends it, finds no other, and leaves.
pub fn worked_parts_are_found()
    ensures { WorkedPartsAreFound }
{}

/// So do three worked parts that take the ITS: a vCPU makes a queue, adds a command to it, and enables the ITS, which takes the
/// command, finds that it has a fault, and stalls the queue.
pub fn worked_command_is_found()
    ensures { WorkedCommandIsFound }
{}
