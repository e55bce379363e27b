// Pseudo-random numbers, by xorshift: 13 left, 7 right, 17 left. The seed is not 0.
ghost use Rattle.std.specs.Prelude.{eqb, ◌≡◌};
ghost use Rattle.second.specs.inner.Words.{sum};
ghost use Rattle.bench.specs.inner.Run.{drawn, drawn_below, value_drawn};

#[derive(Clone, Copy, PartialEq, Eq, Debug)]
pub struct Random {
    pub seed: u64,
}

impl Random {
    #[tactic(auto, unfolding(crate::specs::inner::Run::drawn))]
    pub fn draw(&mut self) -> u64
        ensures value { result ≡ drawn self.old.seed }
        ensures seed_after { self.new.seed ≡ drawn self.old.seed }
    {
        let a = self.seed;
        let b = a ^ (a << 13);
        let c = b ^ (b >> 7);
        let d = c ^ (c << 17);
        self.seed = d;
        d
    }

    // A number below n, 0 where n is 0.
    pub fn below(&mut self, n: u64) -> u64
        ensures value { result ≡ drawn_below self.old.seed n }
        ensures seed_after { self.new.seed ≡ drawn self.old.seed }
    {
        let number = self.draw();
        if n == 0 {
            return 0;
        }
        number % n
    }

    // A number from 1 to n, 1 where n is 0.
    pub fn from_one(&mut self, n: u64) -> u64
        ensures value { result ≡ sum (drawn_below self.old.seed n) 1 }
        ensures seed_after { self.new.seed ≡ drawn self.old.seed }
    {
        self.below(n).wrapping_add(1)
    }

    // Once in n times.
    pub fn once_in(&mut self, n: u64) -> bool
        ensures value { result ≡ eqb (drawn_below self.old.seed n) 0 }
        ensures seed_after { self.new.seed ≡ drawn self.old.seed }
    {
        self.below(n) == 0
    }

    // A value of a word: mostly small, so that equal ones and 0 turn up, and now and then at the end of the range.
    pub fn value(&mut self) -> u64
        ensures value { result ≡ value_drawn self.old.seed }
        ensures seed_after { self.new.seed ≡ drawn (drawn self.old.seed) }
    {
        match self.below(8) {
            0 => self.draw(),
            1 => u64::MAX - self.below(3),
            _ => self.below(4),
        }
    }
}
