//! A board with one vCPU, a timer and a UART over the ideal controller as a machine, and what its guest sees of their interrupts.
#![tactic(auto)]

mod board;
mod device;
mod guest;

use crate::board::Board;
use crate::guest::{Served, boot, take_interrupt};

/// What comes in at the UART at each time.
const INPUT: [Option<u8>; 8] = [
    None,
    Some(b'o'),
    None,
    Some(b'k'),
    None,
    None,
    Some(b'!'),
    None,
];

/// The most interrupts that the guest takes at one time.
const MOST: usize = 4;

/// Prints what the guest serves while IRQ is asserted. None where the controller refuses an access.
fn run_guest(rt: &HostRuntime, board: &mut Board, time: usize) -> anyhow::Result<bool> {
    for _ in 0..MOST {
        if !board.machine.lines(0).irq {
            break;
        }
        match take_interrupt(board) {
            Some(Served::Timer) => println!(rt; "time {time}: the timer")?,
            Some(Served::Byte(byte)) => println!(rt; "time {time}: the UART has {byte}")?,
            Some(Served::Nothing) => println!(rt; "time {time}: nothing")?,
            None => return Ok(false),
        }
    }
    Ok(true)
}

fn main(rt: HostRuntime) -> anyhow::Result<()> {
    let Some(mut board) = Board::open(rt.alloc()) else {
        println!(rt; "no memory")?;
        return Ok(());
    };
    let mut is_fine = boot(&mut board.machine).is_some();
    for (time, byte) in INPUT.iter().enumerate() {
        board.advance(*byte);
        board.signal();
        is_fine &= run_guest(&rt, &mut board, time)?;
    }
    println!(rt; "each access was the controller's: {is_fine}")?;
    Ok(())
}
