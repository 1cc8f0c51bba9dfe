ghost use Rattle.std.specs.Prelude.{◌≡◌, ◌<◌};
ghost use Rattle.m17_text_commands.specs.Draws.{next_number, drawn_after};

/// What a number is multiplied by, and what is added, to come to the next one.
const MULTIPLIER: u64 = 6_364_136_223_846_793_005;

const INCREMENT: u64 = 1_442_695_040_888_963_407;

/// How many low bits of a number are not drawn from.
const LOW_BITS: u32 = 33;

// Draws by numbers of 64 bits, each from the one before it.
#[derive(Clone, Copy, Debug)]
pub(crate) struct Draws {
    // The last number drawn with, or the seed.
    pub(crate) x: u64,
}

impl Draws {
    // Draws one of 0 to `below` - 1.
    #[inline]
    #[tactic(auto, unfolding(crate::specs::Draws::drawn_after))]
    pub(crate) fn draw(&mut self, below: u32) -> u32
        requires { 0 < below }
        ensures drawn { result ≡ drawn_after below self.old.x }
        ensures next { self.new.x ≡ next_number self.old.x }
        ensures within { result < below }
    {
        self.x = after(self.x);
        (self.x >> LOW_BITS) as u32 % below
    }
}

// The number that comes after this one.
#[inline]
#[tactic(auto, using(crate::proofs::Drawn::number_after))]
fn after(x: u64) -> u64
    ensures { result ≡ next_number x }
{
    x.wrapping_mul(MULTIPLIER).wrapping_add(INCREMENT)
}
