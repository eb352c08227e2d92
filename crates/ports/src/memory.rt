// The three traits over values in memory, for tests.
ghost use Rattle.std.specs.Prelude.{◌↔◌, IsTrue, Contains};

pub mod clock;
pub mod sink;
pub mod source;

// Whether the number stands in the list.
fn is_listed(numbers: &[u64], number: u64) -> bool
    ensures { IsTrue result ↔ Contains numbers.now number }
{
    numbers.contains(&number)
}
