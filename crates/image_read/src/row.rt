//! The numbers of a row of an image, taken one after the other.
ghost use Rattle.std.specs.Prelude.{◌≡◌, ◌≤◌, ◌<◌, ◌^◌, ℕ, List, [], ◌∷◌, Bool, Option, Some, IfSome, IsSome, map, option_map};
ghost use Rattle.serde_json.specs.Data.{Data};
ghost use Rattle.serde_json.specs.View.{view};
ghost use Rattle.gic_resume.specs.GicSave.Cell.{number_data, cell_data, flag_cell};
ghost use Rattle.json_field.specs.Field.{list_of as list_in};
ghost use Rattle.image_read.specs.Left.{left};

use json_field::list_of;
use serde_json::Value;

/// What is left of a row: its elements, or nothing once one was not as it had to be.
#[derive(Clone, Copy)]
pub(crate) struct Row<'v> {
    rest: Option<&'v [Value]>,
}

/// The first of some values, and those after it. None where there is no value.
pub(crate) fn split(values: Option<&[Value]>) -> Option<(&Value, &[Value])>
    ensures told { IfSome result (λ pair. left values.entry ≡ Some (view pair.0.now ∷ map view pair.1.now)) }
    ensures only { (d : Data) (rest : List Data) → left values.entry ≡ Some (d ∷ rest) → IsSome result }
{
    values?.split_first()
}

impl<'v> Row<'v> {
    /// The row of these elements.
    pub(crate) fn after(values: &'v [Value]) -> Self
        ensures { left result.rest ≡ Some (map view values.now) }
    {
        Row { rest: Some(values) }
    }

    /// The row that an array is.
    pub(crate) fn of(value: &'v Value) -> Self
        ensures { left result.rest ≡ list_in (view value.now) }
    {
        Row {
            rest: list_of(value),
        }
    }

    /// The number that is next, of at most so much. 0 where it is none, and nothing is left then.
    fn number(&mut self, most: u64) -> u64
        ensures told { (rest : List Data) → left self.new.rest ≡ Some rest → left self.old.rest ≡ Some (number_data result ∷ rest) }
        ensures only { (n : ℕ) (rest : List Data) → (n < 2 ^ 64 → n ≤ most) → left self.old.rest ≡ Some (number_data n ∷ rest) → (result ≡ n) × (left self.new.rest ≡ Some rest) }
        ensures within { result ≤ most }
    {
        if let Some((first, rest)) = split(self.rest) {
            if let Some(number) = first.as_u64() {
                if number <= most {
                    self.rest = Some(rest);
                    return number;
                }
            }
        }
        self.rest = None;
        0
    }

    /// The flag that is next.
    pub(crate) fn flag(&mut self) -> bool
        ensures told { (rest : List Data) → left self.new.rest ≡ Some rest → left self.old.rest ≡ Some (cell_data (flag_cell result) ∷ rest) }
        ensures only { (flag : Bool) (rest : List Data) → left self.old.rest ≡ Some (cell_data (flag_cell flag) ∷ rest) → (result ≡ flag) × (left self.new.rest ≡ Some rest) }
    {
        self.number(1) == 1
    }

    /// The number of 8 bits that is next.
    pub(crate) fn byte(&mut self) -> u8
        ensures told { (rest : List Data) → left self.new.rest ≡ Some rest → left self.old.rest ≡ Some (number_data result ∷ rest) }
        ensures only { (n : ℕ) (rest : List Data) → n < 2 ^ 8 → left self.old.rest ≡ Some (number_data n ∷ rest) → (result ≡ n) × (left self.new.rest ≡ Some rest) }
    {
        self.number(u64::from(u8::MAX)) as u8
    }

    /// The number of 16 bits that is next.
    pub(crate) fn half(&mut self) -> u16
        ensures told { (rest : List Data) → left self.new.rest ≡ Some rest → left self.old.rest ≡ Some (number_data result ∷ rest) }
        ensures only { (n : ℕ) (rest : List Data) → n < 2 ^ 16 → left self.old.rest ≡ Some (number_data n ∷ rest) → (result ≡ n) × (left self.new.rest ≡ Some rest) }
    {
        self.number(u64::from(u16::MAX)) as u16
    }

    /// The number of 32 bits that is next.
    pub(crate) fn word(&mut self) -> u32
        ensures told { (rest : List Data) → left self.new.rest ≡ Some rest → left self.old.rest ≡ Some (number_data result ∷ rest) }
        ensures only { (n : ℕ) (rest : List Data) → n < 2 ^ 32 → left self.old.rest ≡ Some (number_data n ∷ rest) → (result ≡ n) × (left self.new.rest ≡ Some rest) }
    {
        self.number(u64::from(u32::MAX)) as u32
    }

    /// The number of 64 bits that is next.
    pub(crate) fn long(&mut self) -> u64
        ensures told { (rest : List Data) → left self.new.rest ≡ Some rest → left self.old.rest ≡ Some (number_data result ∷ rest) }
        ensures only { (n : ℕ) (rest : List Data) → left self.old.rest ≡ Some (number_data n ∷ rest) → (result ≡ n) × (left self.new.rest ≡ Some rest) }
    {
        self.number(u64::MAX)
    }

    /// The number of 32 bits that is next, or none where that is null.
    pub(crate) fn word_or_null(&mut self) -> Option<u32>
        ensures told { (rest : List Data) → left self.new.rest ≡ Some rest → left self.old.rest ≡ Some (cell_data result ∷ rest) }
        ensures only { (cell : Option ℕ) (rest : List Data) → IfSome cell (λ n. n < 2 ^ 32) → left self.old.rest ≡ Some (cell_data cell ∷ rest) → (result ≡ cell) × (left self.new.rest ≡ Some rest) }
    {
        if let Some((first, rest)) = split(self.rest) {
            if first.is_null() {
                self.rest = Some(rest);
                return None;
            }
        }
        Some(self.word())
    }

    /// What was read, where the row has no more elements.
    pub(crate) fn end<T: Drop>(self, read: T) -> Option<T>
        ensures told { IfSome result (λ found. (found ≡ read) × (left self.entry.rest ≡ Some [])) }
        ensures only { left self.entry.rest ≡ Some [] → result ≡ Some read }
    {
        match self.rest {
            Some(rest) if rest.is_empty() => Some(read),
            _ => None,
        }
    }
}
