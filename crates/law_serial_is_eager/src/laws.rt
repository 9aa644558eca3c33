//! Laws of runs in which one part follows the other.
ghost use Rattle.law_serial_is_eager.specs.Serial.{SerialRunsAreEager};
ghost use Rattle.law_serial_is_eager.specs.Worked.{WorkedPartsAreFit};

/// A law of every proper run of a good guest in which each part ends before the next one begins, and makes its call: where, as a
/// part for an access of a CPU interface begins, each vCPU has nothing at its interface, or is not kicked, gives nothing back and
/// owes no scan, the guest with all that stands at interfaces taken back goes on as the eager controller's, and each part answers
/// what that answers.
pub fn serial_runs_are_eager()
    ensures { SerialRunsAreEager }
{}

/// A worked run that meets the premises of `serial_runs_are_eager`: a vCPU enters, a device makes SPI 40 pending, and the vCPU
/// leaves and enters, acknowledges the SPI, ends it, finds no other, and leaves.
pub fn worked_parts_are_fit()
    ensures { WorkedPartsAreFit }
{}
