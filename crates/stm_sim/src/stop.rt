// The steps before a stop.
ghost use Rattle.std.specs.Prelude.{◌≡◌};
ghost use Rattle.stm_sim.specs.Memory.{runs_into_stop, after_steps, steps_left};

use crate::Stop;

/// Whether so many steps more run into the stop.
pub fn runs_into_stop(stop: Stop, steps: u64) -> bool
    ensures { result ≡ runs_into_stop steps stop }
{
    match stop {
        Stop::Never => false,
        Stop::After(left) => left < steps,
        Stop::Fallen => true,
    }
}

/// The stop after so many steps more.
pub fn after_steps(stop: Stop, steps: u64) -> Stop
    ensures { result ≡ after_steps steps stop }
{
    match stop {
        Stop::Never => Stop::Never,
        Stop::After(left) => Stop::After(left.saturating_sub(steps)),
        Stop::Fallen => Stop::Fallen,
    }
}

/// How many steps are done before the stop.
pub fn steps_left(stop: Stop) -> u64
    ensures { result ≡ steps_left stop }
{
    match stop {
        Stop::After(left) => left,
        Stop::Never | Stop::Fallen => 0,
    }
}
