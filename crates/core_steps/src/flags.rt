ghost use Rattle.std.specs.Prelude.{◌≡◌, true, set};
ghost use Rattle.core_steps.specs.Rows.{all_set, all_clear};

use std::alloc::AllocError;
use std::marker::Model;

/// A flag for each channel, which contracts see as a list.
#[derive(Debug, Drop)]
pub struct Flags {
    items: Vec<bool>,
}

impl Model for Flags {
    ghost use Rattle.std.specs.Prelude.{List, Bool};

    ghost Value = { List Bool };

    ghost view = { λ flags. flags.items.items };
}

impl Clone for Flags {
    ghost is_clone = { λ flags copy. copy ≡ flags };

    fn clone(&self) -> Result<Flags, AllocError> {
        let items = Vec::from_slice(*self.items.allocator(), self.items.as_slice())?;
        Ok(Flags { items })
    }
}

impl Flags {
    pub fn new(items: Vec<bool>) -> Flags
        ensures { result ≡ items.items }
    {
        Flags { items }
    }

    pub fn as_slice(&self) -> &[bool]
        ensures { result.now ≡ self.now }
    {
        self.items.as_slice()
    }
    /// Whether each flag is set.
    pub fn all(&self) -> bool
        ensures { result ≡ all_set self.now }
    {
        self.items.iter().all(|flag| *flag)
    }

    /// Clears each flag.
    pub fn clear(&mut self)
        ensures { self.new ≡ all_clear self.old }
    {
        self.items.as_mut_slice().fill(false);
    }

    /// Sets one flag. Past the last nothing changes.
    pub fn set(&mut self, place: usize)
        ensures { self.new ≡ set self.old place true }
    {
        if let Some(flag) = self.items.get_mut(place) {
            *flag = true;
        }
    }
}
