// What a field's value comes to where a reader goes on after an unreadable one: a flag beside the number.
#![tactic(auto)]

ghost use Rattle.std.specs.Prelude.{◌≡◌, ◌≤◌};
ghost use Rattle.case_field_reads.specs.Reads.{is_read, number_in};

pub use case_fields::list_field;

// The smaller of two numbers.
pub fn at_most(n: usize, limit: usize) -> usize
    ensures { result ≤ limit }
{
    n.min(limit)
}

// Whether a number could be read.
pub fn is_number(value: Option<u64>) -> bool
    ensures { result ≡ is_read value }
{
    value.is_some()
}

// The number, 0 where it could not be read.
pub fn number_in(value: Option<u64>) -> usize
    ensures { result ≡ number_in value }
{
    value.unwrap_or(0) as usize
}
