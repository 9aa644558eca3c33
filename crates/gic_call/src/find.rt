//! What an access of a memory-mapped register is to, with what it fits.
ghost use Rattle.std.specs.Prelude.{◌≡◌, IsTrue};
ghost use Rattle.floor_registers.specs.Registers.{is_size};
ghost use Rattle.gic_open.specs.GicGuest.Good.{fits};
ghost use Rattle.floor_registers.specs.GicDmap.Map.{decoded as dist_decoded};
ghost use Rattle.floor_registers.specs.GicRmap.Map.{decoded as redist_decoded};
ghost use Rattle.floor_registers.specs.GicImap.Map.{decoded as its_decoded};
ghost use Rattle.gic_call.specs.Fit.{FitsDist, FitsRedist, FitsIts};

/// What an access of 1, 2, 4 or 8 bytes at a byte offset in the distributor is to. A value that is written fits
/// the size; it then fits what the access is to.
#[tactic(auto, using(crate::proofs::FitLemmas::dist_fits))]
pub fn dist_access(offset: u32, size: u32, write: Option<u64>) -> floor_registers::DistRegRef
    requires size { IsTrue (is_size size) }
    requires fits { IsTrue (fits size write) }
    ensures value { result ≡ dist_decoded offset size }
    ensures fits { FitsDist result write }
{
    let _ = write;
    floor_registers::dist_decode(offset, size)
}

/// What an access of a redistributor is of: its RD frame, and its SGI frame from 0x10000.
#[tactic(auto, using(crate::proofs::FitLemmas::redist_fits))]
pub fn redist_access(offset: u32, size: u32, write: Option<u64>) -> floor_registers::RedistRegRef
    requires size { IsTrue (is_size size) }
    requires fits { IsTrue (fits size write) }
    ensures value { result ≡ redist_decoded offset size }
    ensures fits { FitsRedist result write }
{
    let _ = write;
    floor_registers::redist_decode(offset, size)
}

/// What an access of the ITS is of: its control frame, and its translation frame from 0x10000.
#[tactic(auto, using(crate::proofs::FitLemmas::its_fits))]
pub fn its_access(offset: u32, size: u32, write: Option<u64>) -> floor_registers::ItsRegRef
    requires size { IsTrue (is_size size) }
    requires fits { IsTrue (fits size write) }
    ensures value { result ≡ its_decoded offset size }
    ensures fits { FitsIts result write }
{
    let _ = write;
    floor_registers::its_decode(offset, size)
}
