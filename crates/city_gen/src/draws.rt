ghost use Rattle.std.specs.Prelude.{◌≡◌, ◌<◌};
ghost use Rattle.city_gen.specs.Draws.{draw, next};

/// The multiplier and the increment of a step, those of Knuth's MMIX.
const MULTIPLIER: u64 = 6_364_136_223_846_793_005;

const INCREMENT: u64 = 1_442_695_040_888_963_407;

/// Draws numbers one after another by a linear congruential generator on 64 bits (Knuth, The Art of Computer Programming, 3.3.4).
#[derive(Drop)]
pub(crate) struct Draws {
    pub(crate) state: u64,
}

impl Draws {
    /// Begins at a number, from which nothing is drawn yet.
    pub(crate) fn new(number: u64) -> Draws
        ensures { result.state ≡ number }
    {
        Draws { state: number }
    }

    /// The next number below a count that isn't 0: what is left of the upper 31 bits of the next state, divided by the count.
    #[tactic(auto, unfolding(crate::specs::Draws::after))]
    pub(crate) fn below(&mut self, count: u32) -> u32
        requires { 0 < count }
        ensures drawn { result ≡ draw 1 count self.old.state }
        ensures state { self.new.state ≡ next self.old.state }
        ensures below { result < count }
    {
        self.state = self.state.wrapping_mul(MULTIPLIER).wrapping_add(INCREMENT);
        (self.state >> 33) as u32 % count
    }
}
