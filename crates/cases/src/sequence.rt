// A fixed pseudo-random sequence.
ghost use Rattle.std.specs.Prelude.{◌≡◌, ◌*◌, ◌/◌, ◌%◌, ◌<◌, ◌≤◌};

const MODULUS: usize = 2_147_483_647;

const FACTOR: usize = 48_271;

// The state of the sequence.
#[derive(Drop)]
pub struct Sequence {
    pub state: usize,
}

impl Sequence {
    // The sequence from a first state.
    pub fn new(seed: usize) -> Sequence
        ensures { result.state ≡ seed }
    {
        Sequence { state: seed }
    }

    // The next number of the sequence, below a limit, or 0 where the limit is 0.
    pub fn draw(&mut self, limit: usize) -> usize
        ensures state { self.new.state ≡ self.old.state % MODULUS * FACTOR % MODULUS }
        ensures drawn { 0 < limit → result ≡ self.new.state / 16 % limit }
        ensures below { 0 < limit → result < limit }
        ensures at_most { result ≤ limit }
    {
        self.state = self.state % MODULUS * FACTOR % MODULUS;
        (self.state / 16).checked_rem(limit).unwrap_or(0)
    }
}
