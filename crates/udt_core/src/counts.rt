// Counts that stay at their end.

ghost use Rattle.std.specs.Prelude.{◌≡◌};
ghost use Rattle.udt_model.specs.Events.{risen as one_more};

/// One more, where there is one.
pub fn risen(count: u64) -> u64
    ensures { result ≡ one_more count }
{
    count.saturating_add(1)
}
