//! Which words threads sleep on. It is only for time: nothing that a contract speaks of is in it.
ghost use Rattle.std.specs.Prelude.{◌≡◌};

use std::alloc::{AllocError, Global};
use std::sync::atomic::AtomicU64;
use std::sync::atomic::Ordering::SeqCst;

/// A mark that says that no thread sleeps, and one that says that a thread may.
const AWAKE: u64 = 0;

const SLEEPS: u64 = 1;

/// A word whose mark is set. It can't be dropped: the thread that has it sleeps, and then clears the mark. A thread
/// can't sleep without one, so it can't fall asleep before it has set the mark.
pub(crate) struct Marked {
    word: usize,
}

impl Marked {
    pub(crate) fn word(&self) -> usize
        ensures { result ≡ self.now.word }
    {
        self.word
    }
}

/// A mark for each word of a hall's table. The thread that sleeps on a word sets it before, and clears it afterwards.
/// At most one thread waits at a word (`laws::one_waits_at_a_word`), so nobody else sets it.
#[derive(Drop)]
pub(crate) struct Sleepers {
    marks: Vec<AtomicU64>,
}

impl Sleepers {
    /// Returns marks for so many words, on none of which a thread sleeps.
    pub(crate) fn none(alloc: Global, words: usize) -> Result<Sleepers, AllocError> {
        let mut marks = Vec::with_capacity(alloc, words)?;
        for _ in 0..words {
            marks.push(AtomicU64::new(AWAKE))?;
        }
        Ok(Sleepers { marks })
    }

    /// Says that a thread is about to sleep on the word. Returns what lets it sleep.
    pub(crate) fn mark(&self, word: usize) -> Marked
        ensures { result.word ≡ word }
    {
        self.say(word, SLEEPS);
        Marked { word }
    }

    /// Says that the thread sleeps no longer.
    pub(crate) fn clear(&self, marked: Marked) {
        let Marked { word } = marked;
        self.say(word, AWAKE);
    }

    fn say(&self, word: usize, what: u64) {
        match self.marks.get(word) {
            Some(mark) => mark.store(what, SeqCst),
            None => {}
        }
    }

    /// Whether a thread may sleep on the word.
    #[inline(always)]
    pub(crate) fn may_sleep(&self, word: usize) -> bool {
        match self.marks.get(word) {
            Some(mark) => mark.load(SeqCst) != AWAKE,
            None => true,
        }
    }
}
