//! Counts of faults.
ghost use Rattle.std.specs.Prelude.{◌≡◌, ◌≤◌};
ghost use Rattle.ec_edge.specs.Fault.{Rose, raised};

/// The count after one more fault.
pub fn raised(count: u64) -> u64
    ensures value { result ≡ raised count }
    ensures counts { count ≤ result }
    ensures rose { Rose count result }
{
    count.saturating_add(1)
}
