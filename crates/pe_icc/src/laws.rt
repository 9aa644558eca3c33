//! Laws of a vCPU's stay on a PE.
ghost use Rattle.pe_icc.specs.Laws.{EntryRuns, ExitRests};

/// A law of an entry: after it, the vCPU is where its accesses find it and leave it.
pub fn entry_runs()
    ensures { EntryRuns }
{}

/// A law of an exit: it may come after an entry and any accesses, and after it the vCPU may enter a PE again.
#[tactic(auto, using(crate::proofs::LawLemmas::exit_rests))]
pub fn exit_rests()
    ensures { ExitRests }
{}
