//! What a hub keeps of its subscribers' verdicts.
ghost use Rattle.std.specs.Prelude.{◌≡◌, IfSome};

use change_ops::size::Size;
use feeds::kept::KeptVerdicts;
use feeds::stretch::Stretch;
use std::alloc::{AllocError, Global};
use std::sync::{Mutex, Wait};
use version_history::published::{Naming, Published, VersionToken};

/// What is kept for one subscriber.
enum Entry<N: Naming> {
    Nothing,
    Verdicts(KeptVerdicts<N>),
    /// The subscriber is closed, and nothing will be kept for it.
    Closed,
}

impl<N: Naming> Drop for Entry<N> {
    fn drop(self) {
        match self {
            Entry::Nothing | Entry::Closed => {}
            Entry::Verdicts(_) => {}
        }
    }
}

impl<N: Naming> Entry<N> {
    fn verdicts(self) -> Option<KeptVerdicts<N>> {
        match self {
            Entry::Verdicts(kept) => Some(kept),
            Entry::Nothing | Entry::Closed => None,
        }
    }
}

/// The entries of all subscribers, by id, and the two versions that were compared last.
struct Shelf<N: Naming> {
    entries: Vec<Entry<N>>,
    compared: Option<Stretch<N>>,
}

impl<N: Naming> Drop for Shelf<N> {
    fn drop(self) {
        let Shelf {
            entries: _,
            compared: _,
        } = self;
    }
}

impl<N: Naming> Shelf<N> {
    /// Puts something in a subscriber's entry, unless it is closed, and answers what was there.
    fn replace(&mut self, subscriber: usize, what: Entry<N>) -> Entry<N> {
        match self.entries.get_mut(subscriber) {
            None | Some(Entry::Closed) => Entry::Closed,
            Some(entry) => std::mem::replace(entry, what),
        }
    }

    /// The comparison of these two versions, if it was the last one.
    fn last(
        &self,
        published: &Published<'_, N>,
        older: &VersionToken<N>,
        newer: &VersionToken<N>,
    ) -> Option<Stretch<N>>
        ensures { IfSome result (λ s. (s.older ≡ older.now) × (s.newer ≡ newer.now)) }
    {
        let last = self.compared.as_ref()?;
        let fits = published.is_same(last.older(), older) && published.is_same(last.newer(), newer);
        if fits { Some(last.again()) } else { None }
    }
}

/// Of each subscriber that isn't closed the verdicts on one version at most, and the two versions that were compared
/// last, under a lock of their own. Where nothing is kept, a batch only takes longer.
#[derive(Drop)]
pub struct Kept<N: Naming> {
    shelf: Mutex<Shelf<N>>,
}

impl<N: Naming> Kept<N> {
    /// Keeps nothing yet; it has an entry for each subscriber that the size allows.
    pub(crate) fn new(alloc: Global, size: Size) -> Result<Kept<N>, AllocError> {
        let most = size.subscribers();
        let mut entries = Vec::with_capacity(alloc, most)?;
        for _subscriber in 0..most {
            entries.push(Entry::Nothing)?;
        }
        let shelf = Shelf {
            entries,
            compared: None,
        };
        Ok(Kept {
            shelf: Mutex::new(shelf),
        })
    }

    /// Takes out what is kept of a subscriber's verdicts.
    pub fn take<R: Wait>(&self, rt: &R, subscriber: usize) -> Option<KeptVerdicts<N>> {
        let mut shelf = self.shelf.lock(rt);
        shelf.replace(subscriber, Entry::Nothing).verdicts()
    }

    /// Keeps a subscriber's verdicts instead of what was kept, unless it is closed.
    pub fn put<R: Wait>(&self, rt: &R, subscriber: usize, verdicts: KeptVerdicts<N>) {
        let mut shelf = self.shelf.lock(rt);
        let _before = shelf.replace(subscriber, Entry::Verdicts(verdicts));
    }

    /// Lets go what is kept of a subscriber's verdicts. Nothing is kept for it from now on.
    pub(crate) fn close<R: Wait>(&self, rt: &R, subscriber: usize) {
        let mut shelf = self.shelf.lock(rt);
        let _before = shelf.replace(subscriber, Entry::Closed);
    }

    /// Compares two versions, unless they were compared last.
    pub fn stretch<R: Wait>(
        &self,
        rt: &R,
        published: &Published<'_, N>,
        older: &VersionToken<N>,
        newer: &VersionToken<N>,
    ) -> Stretch<N>
        ensures { (result.older ≡ older.now) × (result.newer ≡ newer.now) }
    {
        if let Some(stretch) = self.shelf.lock(rt).last(published, older, newer) {
            return stretch;
        }
        let stretch = Stretch::between(published, older, newer);
        self.shelf.lock(rt).compared = Some(stretch.again());
        stretch
    }
}
