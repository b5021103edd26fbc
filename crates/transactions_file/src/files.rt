//! The live files of a channel and their lengths.
ghost use Rattle.std.specs.Prelude.{◌≡◌, ◌^◌, false, IfSome, IfNone};
ghost use Rattle.transactions_file.specs.Files.{is_live, IsAt, IsRising};

use std::alloc::{AllocError, Global};
use std::marker::Model;

/// The number and the length in bytes of each live file, by rising number.
#[derive(Drop)]
pub struct FileList {
    /// The files stand in front; the places behind them are room for more.
    places: Vec<(u64, u64)>,
    used: usize,
}

impl Model for FileList {
    ghost use Rattle.std.specs.Prelude.{◌≤◌, ◌-◌, ◌^◌, take, vec_len};
    ghost use Rattle.transactions_file.specs.Files.{Files, IsRising};

    ghost Value = { Files };

    ghost view = { λ l. record { pairs = take l.used l.places.items; spare = vec_len l.places - l.used } };

    ghost invariant = { λ l. record { within : l.used ≤ vec_len l.places; rising : IsRising 0 (2 ^ 64) (take l.used l.places.items) } };
}

impl FileList {
    ghost use Rattle.std.specs.Prelude.{◌≡◌, ◌≤◌, ◌<◌, ◌+◌, ◌-◌, ◌^◌, ◌++◌, ◌∷◌, [], OnOk};
    ghost use Rattle.transactions_file.specs.Files.{IsRising, length_of, set_length, without};

    /// A list of no file. It takes no memory.
    pub fn new(alloc: Global) -> Self
        ensures { result ≡ record { pairs = []; spare = 0 } }
    {
        FileList {
            places: Vec::new(alloc),
            used: 0,
        }
    }

    pub fn as_slice(&self) -> &[(u64, u64)]
        ensures { result.now ≡ self.now.pairs }
    {
        &self.places[..self.used]
    }

    /// The length of a file in bytes. `None` exactly where the file is not live.
    pub fn length_of(&self, file: u64) -> Option<u64>
        ensures { result ≡ length_of self.now.pairs file }
    {
        match find(&self.places[..self.used], file) {
            Some(place) => Some(self.places[place].1),
            None => None,
        }
    }

    /// Adds an empty file.
    pub fn push(&mut self, file: u64)
        requires spare { 1 ≤ self.old.spare }
        requires above { IsRising 0 file self.old.pairs }
        ensures { self.new ≡ record { pairs = self.old.pairs ++ (file, 0) ∷ []; spare = self.old.spare - 1 } }
    {
        self.places[self.used] = (file, 0);
        self.used += 1;
    }

    /// Sets the length of a file, if it is live.
    pub fn set_length(&mut self, file: u64, length: u64)
        ensures { self.new ≡ record { pairs = set_length self.old.pairs file length; spare = self.old.spare } }
    {
        match find(&self.places[..self.used], file) {
            Some(place) => self.places[place].1 = length,
            None => {}
        }
    }

    /// Takes a file out, if it is live. The others stay in order.
    pub fn remove(&mut self, file: u64)
        ensures { self.new ≡ record { pairs = without self.old.pairs file; spare = self.old.spare } }
    {
        match find(&self.places[..self.used], file) {
            Some(place) => {
                let _ = self.places.remove(place);
                self.used -= 1;
            }
            None => {}
        }
    }

    /// Makes room for at least so many more files.
    pub fn reserve(&mut self, more: usize) -> Result<(), AllocError>
        ensures room { OnOk result (more ≤ self.new.spare) }
        ensures kept { self.old.spare ≤ self.new.spare }
        ensures pairs { self.new.pairs ≡ self.old.pairs }
    {
        let spare = self.places.len() - self.used;
        for _ in spare..more {
            self.places.push((0, 0))?;
        }
        Ok(())
    }
}

/// The place of this file among files by rising number.
fn find(files: &[(u64, u64)], file: u64) -> Option<usize>
    requires { IsRising 0 (2 ^ 64) files.now }
    ensures found { IfSome result (IsAt files.now file) }
    ensures absent { IfNone result (is_live files.now file ≡ false) }
{
    files
        .binary_search_by_key(&file, |&(number, _)| number)
        .ok()
}
