//! Numbers drawn from a seed.

ghost use Rattle.std.specs.Prelude.{◌<◌, length};

/// A row of numbers that its seed determines.
#[derive(Clone, Copy, Debug)]
pub(crate) struct Dice {
    state: u64,
}

impl Dice {
    pub(crate) fn of(seed: u64) -> Dice {
        Dice { state: seed }
    }

    /// The next number, below a bound that is not 0.
    pub(crate) fn roll(&mut self, below: u64) -> u64
        requires { 0 < below }
        ensures { result < below }
    {
        self.state = self.state.wrapping_add(0x9E37_79B9_7F4A_7C15);
        let mut mixed = self.state;
        mixed = (mixed ^ (mixed >> 30)).wrapping_mul(0xBF58_476D_1CE4_E5B9);
        mixed = (mixed ^ (mixed >> 27)).wrapping_mul(0x94D0_49BB_1331_11EB);
        (mixed ^ (mixed >> 31)) % below
    }

    /// The next number, below a bound that is not 0.
    pub(crate) fn roll_small(&mut self, below: u32) -> u32
        requires { 0 < below }
        ensures { result < below }
    {
        self.roll(u64::from(below)) as u32
    }

    /// One of some numbers.
    pub(crate) fn one_of(&mut self, values: &[u64]) -> u64
        requires { 0 < length values.now }
    {
        values[self.roll(values.len() as u64) as usize]
    }

    /// One of some small numbers.
    pub(crate) fn small_of(&mut self, values: &[u32]) -> u32
        requires { 0 < length values.now }
    {
        values[self.roll(values.len() as u64) as usize]
    }

    /// Once in so many times, which are not 0.
    pub(crate) fn is_once_in(&mut self, times: u64) -> bool
        requires { 0 < times }
    {
        self.roll(times) == 0
    }
}
