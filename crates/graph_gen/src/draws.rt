//! Numbers drawn from a seed.

ghost use Rattle.std.specs.Prelude.{◌≡◌, ◌<◌, ◌≤◌};
ghost use Rattle.graph_gen.specs.Draws.{next, drawn, sample_drawn};

/// A linear congruential generator of 64 bits, with the constants of Knuth's MMIX. Its state starts as the seed.
#[derive(Drop)]
pub(crate) struct Draws {
    pub(crate) state: u64,
}

impl Draws {
    /// Goes on to the next state, and gives it.
    fn step(&mut self) -> u64
        ensures state { self.new.state ≡ next self.old.state }
        ensures given { result ≡ next self.old.state }
    {
        let product = self.state.wrapping_mul(6364136223846793005);
        self.state = product.wrapping_add(1442695040888963407);
        self.state
    }

    /// A number below `k`, of the state's upper 31 bits.
    pub(crate) fn draw(&mut self, k: u32) -> u32
        requires { 0 < k }
        ensures state { self.new.state ≡ next self.old.state }
        ensures drawn { result ≡ drawn self.old.state k }
        ensures below { result < k }
    {
        let drawn = self.step();
        (drawn >> 33) as u32 % k
    }

    /// A sample of 16 bits, scaled to 32.
    pub(crate) fn sample(&mut self) -> i64
        ensures state { self.new.state ≡ next self.old.state }
        ensures drawn { result ≡ sample_drawn self.old.state }
    {
        let state = self.step();
        i64::from(((state >> 48) as u16).cast_signed()) * 65536
    }
}
