//! The draws of the generator.

ghost use Rattle.std.specs.Prelude.{◌≡◌, ◌<◌, ◌^◌};
ghost use Rattle.capture_maker.specs.Draws.{number_of, state_behind};

const MULTIPLIER: u64 = 6_364_136_223_846_793_005;

const INCREMENT: u64 = 1_442_695_040_888_963_407;

/// A sequence of draws, by its state.
#[derive(Drop)]
pub struct Draws {
    pub state: u64,
}

/// The state that follows a state.
#[inline]
fn step(state: u64) -> u64
    ensures { result ≡ state_behind state }
{
    state.wrapping_mul(MULTIPLIER).wrapping_add(INCREMENT)
}

impl Draws {
    /// The next number, below 2^31.
    #[inline]
    pub fn draw(&mut self) -> u64
        ensures state { self.new.state ≡ state_behind self.old.state }
        ensures number { result ≡ number_of (state_behind self.old.state) }
        ensures below { result < 2 ^ 31 }
    {
        self.state = step(self.state);
        self.state >> 33
    }
}
