// Stores to non-volatile memory up to a limit.
ghost use Rattle.std.specs.Prelude.{◌≡◌, [], ◌∷◌, ◌+◌, ◌-◌, ◌*◌, ◌≤◌, ◌<◌, ◌^◌, min, length};
ghost use Rattle.image.specs.inner.Facts.{IsImage};
ghost use Rattle.recovery.specs.Recovery.{zeros};
ghost use Rattle.recovery.specs.inner.Limit.{max_undone, limited};

use image::Sizes;

// How many stores the limit lets through, and how many are due so far. Every store that is due counts, made or not:
// recovery has finished if at most as many were due as the limit lets through.
#[derive(Clone, Copy)]
pub struct Stores {
    pub limit: usize,
    pub due: usize,
}

impl Stores {
    // One store, made unless those before it used the limit up.
    pub fn put(&mut self, nvm: &mut [u64], at: usize, value: u64)
        requires at_in_bounds { at < length nvm.old }
        requires due_bound { self.old.due + 1 < 2 ^ 64 }
        ensures limit { self.new.limit ≡ self.old.limit }
        ensures counted { self.new.due ≡ self.old.due + 1 }
        ensures written { nvm.new
            ≡ limited self.old.limit self.old.due (record { at = at; value = value } ∷ []) nvm.old }
    {
        if self.due < self.limit {
            nvm[at] = value;
        }
        self.due += 1;
    }

    // How many of `count` more are made.
    fn made(self, count: usize) -> usize
        ensures { result ≡ min (self.limit - self.due) count }
    {
        count.min(self.limit.saturating_sub(self.due))
    }

    // The log words become 0, in rising order, as far as the limit lets them. A word that is 0 already counts as stored
    // and is left alone.
    pub fn clear_logs(&mut self, sizes: Sizes, nvm: &mut [u64])
        requires image { IsImage sizes nvm.old }
        requires due_bound { self.old.due ≤ max_undone + 1 }
        ensures limit { self.new.limit ≡ self.old.limit }
        ensures counted { self.new.due ≡ self.old.due + 2 * sizes.lanes * sizes.slots }
        ensures written { nvm.new
            ≡ limited self.old.limit self.old.due (zeros (1 + sizes.words) (2 * sizes.lanes * sizes.slots))
            nvm.old }
    {
        let count = 2 * sizes.lanes * sizes.slots;
        let start = 1 + sizes.words;
        let end = start + self.made(count);
        image::bulk::clear_whole_words(&mut nvm[start..end]);
        self.due += count;
    }
}
