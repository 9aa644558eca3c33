//! Traces that are written call by call.

use crate::table::verdict_of;
use gic_check::Verdict;
use std::alloc::{AllocError, Global};
use std::test::Fail;

/// A guest, and what its actors did so far.
#[derive(Drop)]
pub(crate) struct Tape {
    alloc: Global,
    guest: &'static str,
    /// The events, each as JSON.
    pub(crate) events: Vec<String>,
}

impl Tape {
    /// One on which nothing is written.
    pub(crate) fn of(alloc: Global, guest: &'static str) -> Tape {
        Tape {
            alloc,
            guest,
            events: Vec::new(alloc),
        }
    }

    /// An actor, `v` or `d` with its number, does this.
    pub(crate) fn push(&mut self, kind: char, number: u32, event: &str) -> Result<(), AllocError> {
        let event = format!(in self.alloc; "{{\"by\":[\"{kind}\",{number}],{event}}}")?;
        self.events.push(event)?;
        Ok(())
    }

    /// A vCPU's call begins, of this form, and makes these events.
    pub(crate) fn begin(
        &mut self,
        vcpu: u32,
        form: &str,
        events: &[&str],
    ) -> Result<(), AllocError> {
        let begin = format!(in self.alloc; "\"begin\":{{{form}}}")?;
        self.push('v', vcpu, begin.as_str())?;
        for event in events {
            self.push('v', vcpu, event)?;
        }
        Ok(())
    }

    /// The same, and the call ends and answers nothing.
    pub(crate) fn call(
        &mut self,
        vcpu: u32,
        form: &str,
        events: &[&str],
    ) -> Result<(), AllocError> {
        self.begin(vcpu, form, events)?;
        self.push('v', vcpu, "\"end\":null")
    }

    /// vCPU 0 stores eight bytes of memory.
    pub(crate) fn store(&mut self, address: u32, value: u64) -> Result<(), AllocError> {
        let form = format!(in self.alloc; "\"ram\":{address},\"size\":8,\"write\":{value}")?;
        let put = format!(in self.alloc; "\"put\":[\"ram:{}\",{value}]", address / 8)?;
        self.call(0, form.as_str(), &[put.as_str()])
    }

    /// vCPU 0 stores a command's doublewords, but for zeros, which are there.
    pub(crate) fn store_command(
        &mut self,
        address: u32,
        words: [u64; 3],
    ) -> Result<(), AllocError> {
        for (index, word) in words.iter().enumerate() {
            if *word != 0 {
                self.store(address.saturating_add(8 * index as u32), *word)?;
            }
        }
        Ok(())
    }

    /// The verdict on the first events, so many.
    pub(crate) fn verdict(&self, count: usize) -> Result<Verdict, Fail> {
        verdict_of(self.alloc, self.guest, self.events.as_slice(), count)
    }
}
