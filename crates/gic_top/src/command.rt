//! The commands, and their reading from words.

ghost use Rattle.std.specs.Prelude.{◌≡◌, ◌≤◌, ◌↔◌, IsTrue, IfSome, map, string_bytes};
ghost use Rattle.gic_top.specs.Command.{command_in, number_in, count_in, IsPadded, IsCount, alone as command_alone, threads_with as threads_command_with, soak_with as soak_command_with, save_with as save_command_with, IsInBounds};

use gic_host::scenarios::{MAX_PES, MAX_STEPS};

/// The most operations of a vCPU while it is on a PE that `threads` can ask for.
const MAX_PER_TURN: u32 = 1000;

/// What the words of a command line ask for.
#[derive(Clone, Copy, Debug, PartialEq, Eq)]
pub enum Command {
    /// `run`: reads a scenario, does its steps in order, and writes the text.
    Run,
    /// `threads P Q`: reads a scenario, does its steps on threads, and writes the text.
    Threads {
        /// How many PEs there are, each a thread: 1 to 8.
        pes: u32,
        /// How many operations a vCPU does at most while it is on a PE: 1 to 1000.
        per_turn: u32,
    },
    /// `soak N STEPS`: makes the scenario of a number, does its steps in order, and writes one line.
    Soak {
        number: u64,
        /// How many steps it has, at most 100000.
        steps: u32,
    },
    /// `host`: reads physical interrupts that are linked to virtual ones, does the steps with them, and writes the text.
    Host,
    /// `save STEP`: reads a scenario, does its first steps in order, and writes the image of what is saved then.
    Save {
        /// How many steps are done, at most 100000.
        steps: u32,
    },
    /// `resume`: reads an image, does the steps that are left, and writes the rest of the text.
    Resume,
    /// `check`: reads a trace of a guest, and writes whether it can be.
    Check,
}

/// Whether a word begins with a plus, or with a zero before another character.
fn is_padded(word: &[u8]) -> bool
    ensures { IsTrue result ↔ IsPadded word.now }
{
    !word.is_empty() && (word[0] == b'+' || (word[0] == b'0' && word.len() > 1))
}

/// The number that a word writes in decimal digits, without a sign or zeros before them, if it is at most `most`.
fn number_of(word: &str, most: u64) -> Option<u64>
    ensures value { result ≡ number_in most word.now }
    ensures within { IfSome result (λ number. number ≤ most) }
{
    if is_padded(word.as_bytes()) {
        return None;
    }
    let Ok(number) = word.parse::<u64>() else {
        return None;
    };
    (number <= most).then_some(number)
}

/// The number that a word writes so, if it is 1 to `most`.
fn count_of(word: &str, most: u32) -> Option<u32>
    ensures value { result ≡ count_in most word.now }
    ensures within { IfSome result (IsCount most) }
{
    let count = number_of(word, u64::from(most))? as u32;
    (count != 0).then_some(count)
}

/// A command and its arguments, of which there are none.
fn alone(command: Command, arguments: &[String]) -> Option<Command>
    ensures { result ≡ command_alone command (map string_bytes arguments.now) }
{
    arguments.is_empty().then_some(command)
}

/// `threads` and its arguments, which are two counts.
fn threads_with(arguments: &[String]) -> Option<Command>
    ensures value { result ≡ threads_command_with (map string_bytes arguments.now) }
    ensures bounded { IfSome result IsInBounds }
{
    let [pes, per_turn] = arguments else {
        return None;
    };
    let pes = count_of(pes.as_str(), MAX_PES)?;
    let per_turn = count_of(per_turn.as_str(), MAX_PER_TURN)?;
    Some(Command::Threads { pes, per_turn })
}

/// `soak` and its arguments, which are two numbers.
fn soak_with(arguments: &[String]) -> Option<Command>
    ensures value { result ≡ soak_command_with (map string_bytes arguments.now) }
    ensures bounded { IfSome result IsInBounds }
{
    let [number, steps] = arguments else {
        return None;
    };
    let number = number_of(number.as_str(), u64::MAX)?;
    let steps = number_of(steps.as_str(), MAX_STEPS as u64)? as u32;
    Some(Command::Soak { number, steps })
}

/// `save` and its arguments, which are one number.
fn save_with(arguments: &[String]) -> Option<Command>
    ensures value { result ≡ save_command_with (map string_bytes arguments.now) }
    ensures bounded { IfSome result IsInBounds }
{
    let [steps] = arguments else {
        return None;
    };
    let steps = number_of(steps.as_str(), MAX_STEPS as u64)? as u32;
    Some(Command::Save { steps })
}

impl Command {
    /// The command that the words after the program's name are: the first names it, the others are its
    /// arguments. None where they are of no form that is built. Capitals count.
    pub fn of(words: &[String]) -> Option<Command>
        ensures value { result ≡ command_in words.now }
        ensures bounded { IfSome result IsInBounds }
    {
        let (name, arguments) = words.split_first()?;
        match name.as_str() {
            "run" => alone(Command::Run, arguments),
            "threads" => threads_with(arguments),
            "soak" => soak_with(arguments),
            "host" => alone(Command::Host, arguments),
            "save" => save_with(arguments),
            "resume" => alone(Command::Resume, arguments),
            "check" => alone(Command::Check, arguments),
            _ => None,
        }
    }
}
