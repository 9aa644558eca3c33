//! A small VMM over the libraries of this repository: a machine whose vCPUs and device have a thread each, and what its guest reads.
#![tactic(auto)]

mod device;
mod fault;
mod machine;
mod program;
mod signals;
mod threads;
mod vcpu;

use port_seq::{pending, unpack};
use std::io;
use vcpu::Vcpu;

/// Prints what a vCPU read, in order.
fn print_reads(rt: &impl Print, number: u32, vcpu: &Vcpu) -> io::Result<()> {
    for value in &vcpu.reads {
        println!(rt; "vcpu {number} reads 0x{value:x}")?;
    }
    Ok(())
}

/// An interrupt's word says that it is neither pending nor active.
fn is_idle(word: &u64) -> bool {
    unpack(*word).is_some_and(|irq| !pending(&irq) && irq.act_by.is_none())
}

fn main(rt: HostRuntime) -> anyhow::Result<()> {
    let (boot, other) = (program::first(), program::second());
    let mut first = Vcpu::new(rt.alloc(), &boot)?;
    let mut second = Vcpu::new(rt.alloc(), &other)?;
    let ends = threads::run(&rt, rt.alloc(), &mut first, &mut second)?;
    print_reads(&rt, 0, &first)?;
    print_reads(&rt, 1, &second)?;
    let are_all_idle = ends.iter().all(|guest| guest.irqs.iter().all(is_idle));
    println!(rt; "no interrupt is left: {are_all_idle}")?;
    Ok(())
}
