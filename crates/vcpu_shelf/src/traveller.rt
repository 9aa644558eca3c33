//! What travels from PE to PE.
ghost use Rattle.std.specs.Prelude.{◌≡◌, ℕ, Bool};

/// What stands on a PE, or waits on the shelf: a vCPU with all that is its own.
pub trait Traveller: Send + Drop {
    /// Its place on the shelf: the number of its vCPU among all, in the order of guest and number.
    ghost place: { Self → ℕ };

    /// The number of its next step.
    ghost next: { Self → ℕ };

    /// Whether all its steps are done.
    ghost done: { Self → Bool };

    fn place(&self) -> u32
        ensures { result ≡ place self.now };

    fn next(&self) -> u32
        ensures { result ≡ next self.now };

    fn done(&self) -> bool
        ensures { result ≡ done self.now };
}

/// What `take` answers.
#[derive(Drop)]
pub enum Taken<T> {
    /// The traveller of a place that was free.
    Vcpu(T),
    /// No place could be taken, and not all were found finished.
    Busy,
    /// Each place was found finished.
    AllDone,
}
