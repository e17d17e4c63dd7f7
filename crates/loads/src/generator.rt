// The numbers of a load: a 64-bit xorshift.
ghost use Rattle.std.specs.Prelude.{◌≡◌};
ghost use Rattle.loads.specs.Numbers.{shifted};

#[derive(Clone, Copy)]
pub struct Generator {
    pub state: u64,
}

impl Generator {
    // Moves the state on and answers it.
    pub fn next(&mut self) -> u64
        ensures value { result ≡ shifted self.old.state }
        ensures after { self.new.state ≡ result }
    {
        let mut x = self.state;
        x ^= x << 13;
        x ^= x >> 7;
        x ^= x << 17;
        self.state = x;
        x
    }
}
