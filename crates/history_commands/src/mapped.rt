//! What an ITS has mapped after commands.
ghost use Rattle.std.specs.Prelude.{◌≡◌, IfOk, MatchResult, Ok, None, Some};
ghost use Rattle.history_commands.specs.Words.{IsShape};
ghost use Rattle.history_commands.specs.Registers.{fault_number, fault_of};
ghost use Rattle.history_commands.specs.LegalLists.ItsCmd.Command.{decoded};
ghost use Rattle.history_commands.specs.Mapped.{mapped_after, mapped_by, nothing_mapped};

use history_calls::{Command, GuestShape, ItsTables, queue_decode};
use std::alloc::{AllocError, Global};

/// The number of the fault of doublewords that are no command.
const UNKNOWN_NUMBER: u8 = 10;

/// The command of four doublewords that has no fault, or else the number of its fault.
pub(crate) fn good_command(
    tables: &ItsTables,
    shape: &GuestShape,
    words: [u64; 4],
) -> Result<Command, u8>
    requires { IsShape shape.now }
    ensures { MatchResult result (λ command. (decoded words ≡ Ok command) × (fault_of shape.now tables.now command ≡ None)) (λ fault. fault_number shape.now tables.now (decoded words) ≡ Some fault) }
{
    let Ok(command) = queue_decode(words) else {
        return Err(UNKNOWN_NUMBER);
    };
    match tables.fault_in(&command, shape) {
        Some(fault) => Err(fault.number()),
        None => Ok(command),
    }
}

/// Does to the tables what four doublewords do, if they are a command without a fault.
fn do_words(tables: &mut ItsTables, shape: &GuestShape, words: [u64; 4])
    requires { IsShape shape.now }
    ensures { tables.new ≡ mapped_after shape.now tables.old words }
{
    if let Ok(command) = good_command(tables, shape, words) {
        tables.carry_out(&command, shape);
    }
}

/// Tables in which nothing is mapped. `AllocError` where memory is refused.
fn no_tables(alloc: Global) -> Result<ItsTables, AllocError>
    ensures { IfOk result (λ tables. tables ≡ nothing_mapped) }
{
    match ItsTables::of(alloc) {
        Ok(tables) => Ok(tables),
        Err(_) => Err(AllocError),
    }
}

/// The tables after commands that were done one after the other, the oldest first. `AllocError` where memory is refused.
pub(crate) fn tables_after(
    alloc: Global,
    shape: &GuestShape,
    done: &[[u64; 4]],
) -> Result<ItsTables, AllocError>
    requires { IsShape shape.now }
    ensures { IfOk result (λ tables. tables ≡ mapped_by shape.now done.now) }
{
    let mut tables = no_tables(alloc)?;
    for words in done {
        do_words(&mut tables, shape, *words);
    }
    Ok(tables)
}
