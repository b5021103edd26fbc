//! Contents of any type by ids, in the order of their use.

ghost use Rattle.std.specs.Prelude.{◌≡◌, ◌+◌, ◌-◌, ◌<◌, ◌≤◌, ◌∷◌, [], Some, None, length, take, nat_eq, IfOk, IfSome, IfNone, OnOk, OnErr, IfErr, option_copied};
ghost use Rattle.std.specs.Map.{remove_entry};
ghost use Rattle.lru.specs.LruCache.{last_entry, promoted};
ghost use Rattle.entity_cache.specs.Contents.{found_at, OthersStay, AllStay, most_entries};

use entity_region::NoMemory;
use lru::LruCache;
use std::alloc::Global;
use std::marker::Model;
use std::num::NonZeroUsize;

/// So many entities are cached at most.
pub const MOST_ENTRIES: usize = 4096;

/// There was no memory to keep a content, which is handed back.
#[derive(Debug, Drop)]
pub(crate) struct NotKept<C> {
    pub content: C,
}

/// Contents by ids. It knows the order in which they were last used.
#[derive(Drop)]
pub(crate) struct ById<C> {
    contents: LruCache<u64, C>,
}

impl<C> Model for ById<C> {
    ghost use Rattle.std.specs.Prelude.{List, ℕ};
    ghost use Rattle.std.specs.Coded.{coded_list, coded×, coded_ℕ};

    ghost Value = { List (ℕ × C) };

    ghost coded = { coded_list (coded× coded_ℕ C.code) };

    ghost use Rattle.entity_cache.specs.Contents.{IsSound};

    ghost view = { λ by_id. by_id.contents.entries };

    ghost invariant = { λ by_id. IsSound by_id.contents };
}

impl<C: Drop> ById<C> {
    /// No contents.
    pub(crate) fn new(alloc: Global) -> Result<ById<C>, NoMemory>
        ensures { IfOk result (λ by_id. by_id ≡ []) }
    {
        let Some(most) = NonZeroUsize::new(MOST_ENTRIES) else {
            unreachable!()
        };
        Ok(ById {
            contents: LruCache::sparse(alloc, most)?,
        })
    }

    /// How many contents there are.
    pub(crate) fn len(&self) -> usize
        ensures count { result ≡ length self.now }
        ensures most { result ≤ most_entries }
    {
        self.contents.len()
    }

    /// The content of an id, lent. `None` exactly where there is none.
    pub(crate) fn peek(&self, id: u64) -> Option<&C>
        ensures { option_copied result ≡ found_at self.now id }
    {
        self.contents.peek(&id)
    }

    /// Notes that an id was used, so that others are given up before it.
    pub(crate) fn touch(&mut self, id: u64)
        ensures all { AllStay self.old self.new }
        ensures order { self.new ≡ promoted (nat_eq id) self.old }
        ensures count { length self.new ≡ length self.old }
    {
        self.contents.promote(&id);
    }

    /// Keeps the content of a new id, where fewer than the most are there.
    pub(crate) fn keep(&mut self, id: u64, content: C) -> Result<(), NotKept<C>>
        requires new { found_at self.old id ≡ None }
        requires room { length self.old < most_entries }
        ensures kept { OnOk result (found_at self.new id ≡ Some content) }
        ensures others { OthersStay id self.old self.new }
        ensures order { OnOk result (self.new ≡ (id, content) ∷ self.old) }
        ensures refused { OnErr result (self.new ≡ self.old) }
        ensures back { IfErr result (λ refused. refused.content ≡ content) }
    {
        match self.contents.put(id, content) {
            Ok(_none) => Ok(()),
            Err(failed) => Err(NotKept {
                content: failed.value.1,
            }),
        }
    }

    /// Takes an id out, and hands back its content.
    pub(crate) fn forget(&mut self, id: u64) -> Option<C>
        ensures content { result ≡ found_at self.old id }
        ensures gone { found_at self.new id ≡ None }
        ensures others { OthersStay id self.old self.new }
        ensures fewer { IfSome result (λ _. length self.new + 1 ≡ length self.old) }
        ensures same { IfNone result (self.new ≡ self.old) }
        ensures order { self.new ≡ remove_entry (nat_eq id) self.old }
    {
        if self.contents.len() == 0 {
            return None;
        }
        self.contents.pop(&id)
    }

    /// Takes out the id that was not used for the longest time, and hands it back with its content. `None` exactly where
    /// there is none.
    pub(crate) fn give_up(&mut self) -> Option<(u64, C)>
        ensures content { IfSome result (λ given. found_at self.old given.0 ≡ Some given.1) }
        ensures gone { IfSome result (λ given. found_at self.new given.0 ≡ None) }
        ensures others { IfSome result (λ given. OthersStay given.0 self.old self.new) }
        ensures count { length self.new ≡ length self.old - 1 }
        ensures order { self.new ≡ take (length self.old - 1) self.old }
        ensures oldest { result ≡ last_entry self.old }
        ensures none { IfNone result (self.old ≡ []) }
    {
        if self.contents.len() == 0 {
            return None;
        }
        self.contents.pop_lru()
    }
}
