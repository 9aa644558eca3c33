//! What a vCPU's accesses of system registers do, and how its lines are told.
ghost use Rattle.std.specs.Prelude.{◌≡◌, ◌==◌, if◌then◌else◌};
ghost use Rattle.gic_c.specs.Board.{forgotten};
ghost use Rattle.gic_c.specs.Calls.{is_flag, written as written_of, encoding_of as encoding_in, sysreg_reply, after_register, lines_status};
ghost use Rattle.gic_c.specs.declared.answer.Refusal.TheVariants.{Invalid};

use crate::answer::{Refusal, Reply, accessed};
use crate::board::Board;
use vm_saved::Encoding;

/// What op0 is worth in the number of a register; op2 is worth 1.
const OP0: u16 = 1 << 14;
/// What op1 is worth there.
const OP1: u16 = 1 << 11;
/// What CRn is worth there.
const CRN: u16 = 1 << 7;
/// What CRm is worth there.
const CRM: u16 = 1 << 3;
/// How many values op1 and op2 have.
const OP_VALUES: u16 = 8;
/// How many values CRn and CRm have.
const REGISTERS: u16 = 16;

/// Yes or no, as C says it.
pub(crate) fn flag(number: u32) -> Result<bool, Refusal>
    ensures { result ≡ (if is_flag number then Ok (number == 1) else Err Invalid) }
{
    match number {
        0 => Ok(false),
        1 => Ok(true),
        _ => Err(Refusal::Invalid),
    }
}

/// What an access writes: nothing where it reads.
pub(crate) fn written(is_write: u32, value: u64) -> Result<Option<u64>, Refusal>
    ensures { result ≡ (if is_flag is_write then Ok (written_of is_write value) else Err Invalid) }
{
    match is_write {
        0 => Ok(None),
        1 => Ok(Some(value)),
        _ => Err(Refusal::Invalid),
    }
}

/// The register that a number names.
fn encoding_of(number: u16) -> Encoding
    ensures { result ≡ encoding_in number }
{
    Encoding {
        op0: (number / OP0) as u8,
        op1: (number / OP1 % OP_VALUES) as u8,
        crn: (number / CRN % REGISTERS) as u8,
        crm: (number / CRM % REGISTERS) as u8,
        op2: (number % OP_VALUES) as u8,
    }
}

impl Board {
    /// A vCPU reads or writes a system register.
    pub(crate) fn sysreg(
        &mut self,
        vcpu: u32,
        number: u32,
        is_write: u32,
        value: u64,
    ) -> Result<Reply, Refusal>
        ensures reply { result ≡ sysreg_reply vcpu number is_write value self.old }
        ensures board { self.new ≡ after_register vcpu number is_write value self.old }
    {
        self.forget();
        if vcpu >= self.vcpus {
            return Err(Refusal::Invalid);
        }
        let write = written(is_write, value)?;
        match u16::try_from(number) {
            Ok(number) => accessed(self.machine.sysreg(vcpu, encoding_of(number), write)),
            Err(_) => Err(Refusal::NotFound),
        }
    }

    /// The lines of a vCPU, IRQ as 1 and FIQ as 2, or the negative error number.
    pub(crate) fn lines(&mut self, vcpu: u32) -> i32
        ensures lines { result ≡ lines_status vcpu self.old }
        ensures board { self.new ≡ forgotten self.old }
    {
        self.forget();
        if vcpu >= self.vcpus {
            return Refusal::Invalid.errno();
        }
        let lines = self.machine.lines(vcpu);
        i32::from(lines.irq) + 2 * i32::from(lines.fiq)
    }
}
