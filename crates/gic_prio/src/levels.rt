//! Sets of priority levels, as the active priorities registers have them.
ghost use Rattle.std.specs.Prelude.{◌≡◌, ◌≤◌, ◌<◌};
ghost use Rattle.gic_prio.specs.Levels.{least_in, with_level as level_added, without_level as level_removed};

/// How many priority levels there are.
pub const LEVELS: u32 = 32;

/// The least level of a set, or 32 where it has none.
pub(crate) fn least(levels: u32) -> u32
    ensures value { result ≡ least_in levels }
    ensures bound { result ≤ 32 }
{
    levels.trailing_zeros()
}

/// The set with one level more.
pub(crate) fn with_level(level: u32, levels: u32) -> u32
    requires { level < 32 }
    ensures { result ≡ level_added level levels }
{
    levels | 1 << level
}

/// The set without one level.
pub(crate) fn without_level(level: u32, levels: u32) -> u32
    requires { level < 32 }
    ensures { result ≡ level_removed level levels }
{
    levels & !(1 << level)
}
