// The generator of the Filter Effects Module: 16807 x state modulo 2^31 - 1.
ghost use Rattle.std.specs.Prelude.{◌≡◌};
ghost use Rattle.turbulence.specs.Random.{State, next, start_of};

// The state after `state`.
pub fn random(state: u32) -> u32
    requires { State state }
    ensures { (result ≡ next state) × State result }
{
    (16807 * u64::from(state) % 2147483647) as u32
}

// The state at which a seed starts.
pub fn start(seed: i32) -> u32
    ensures { (result ≡ start_of seed) × State result }
{
    let positive = if seed <= 0 {
        -(seed % 2147483646) + 1
    } else {
        seed
    };
    (positive as u32).min(2147483646)
}
