// The interval between rounds, for C and for Rust.
ghost use Rattle.std.specs.Prelude.{◌≡◌};
ghost use Rattle.interval.specs.Interval.{interval};
ghost use Rattle.interval_packing.specs.Answers.{scheduling_of};

use interval_packing::Scheduling;

// The least and the greatest interval between rounds, with the answer 0; zeros beside a refusal.
#[unsafe(no_mangle)]
pub extern "C" fn tohiranga_interval(window: u32, precision: u32, drift: u32) -> Scheduling
    ensures { result ≡ scheduling_of (interval window precision drift) }
{
    interval_packing::pack_scheduled(interval_bounds::interval_for(window, precision, drift))
}
