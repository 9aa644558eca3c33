//! How a machine is saved in room of C's, and restored.
ghost use Rattle.std.specs.Prelude.{◌≡◌, ℕ, List, length};
ghost use Rattle.gic_c.specs.Save.{IsImageOf, save_status, needed_for, after_save, refusal_of, Restores, RestoresOnly};

use crate::answer::{Refusal, Reply};
use crate::board::Board;
use std::alloc::Global;
use vm_saved::{Bytes, NotRestored, NotSaved, restore, save};

/// Puts an image into room where there is enough of it, and tells how many bytes it has. 0, or the negative error number.
pub(crate) fn deliver(image: Result<Bytes, Refusal>, room: &mut [u8], needed: &mut u64) -> i32
    ensures status { result ≡ save_status image (length room.old) }
    ensures needed { needed.new ≡ needed_for image }
    ensures room { room.new ≡ after_save image room.old }
{
    let bytes = match image {
        Ok(bytes) => bytes,
        Err(refusal) => {
            *needed = 0;
            return refusal.errno();
        }
    };
    let count = bytes.len();
    *needed = count as u64;
    if count > room.len() {
        return Refusal::TooSmall.errno();
    }
    room[..count].copy_from_slice(bytes.as_slice());
    0
}

/// Why a machine is not restored: there is no memory, or the bytes are no image of it.
fn refused(refusal: NotRestored) -> Refusal
    ensures { result ≡ refusal_of refusal }
{
    match refusal {
        NotRestored::NoMemory => Refusal::NoMemory,
        NotRestored::NoJson | NotRestored::NoImage(_) | NotRestored::Other => Refusal::Invalid,
    }
}

impl Board {
    /// The image of the machine.
    pub(crate) fn image(&self, alloc: Global) -> Result<Bytes, Refusal>
        ensures { IsImageOf self.now.machine result }
    {
        match save(alloc, &self.machine) {
            Ok(bytes) => Ok(bytes),
            Err(NotSaved::NoMemory) => Err(Refusal::NoMemory),
            Err(NotSaved::Untold) => Err(Refusal::Untold),
        }
    }

    /// The machine is what bytes tell.
    pub(crate) fn restore(&mut self, alloc: Global, bytes: &[u8]) -> Result<Reply, Refusal>
        ensures restored { Restores bytes.now self.old self.new result }
        ensures only { RestoresOnly bytes.now self.old self.new result }
    {
        self.forget();
        match restore(alloc, &mut self.machine, bytes) {
            Ok(done) => Ok(Reply::Done(done)),
            Err(refusal) => Err(refused(refusal)),
        }
    }
}
