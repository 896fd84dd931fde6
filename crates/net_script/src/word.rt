//! One word of a line, and all the words that are left of one.

ghost use Rattle.std.specs.Prelude.{◌≡◌, ◌↔◌, ◌||◌, ℕ, Bool, true, false, List, [], ◌∷◌, map, IsTrue};
ghost use Rattle.std.specs.List.{All};
ghost use Rattle.net_script.specs.Lines.{words};
ghost use Rattle.net_script.specs.Spelling.{Finds, IsSpelling, AreSpellings, no_words, ◌&◌, AreItems, items_of_words, list_of_words};

use crate::stop::Stop;
use crate::words::{is_over, next_word};
use std::alloc::Global;
use wire::Items;
use xid::{MAX_BRANCHES, Sequence};

/// What one word can say.
pub trait Word: Drop + Sized {
    /// The values that words say.
    ghost fits: { Self → Type 0 };

    /// The one text of a value.
    ghost text: { Self → List ℕ };

    /// Whether reading takes memory.
    ghost allocates: { Bool };

    /// The value whose text this is.
    fn read(alloc: Global, word: &[u8]) -> Result<Self, Stop>
        ensures { Finds allocates fits text word.now result };

    /// A text is of one value, and it is a word.
    ghost spelling: { IsSpelling fits text };
}

/// What all the words that are left can say.
pub trait Words: Drop + Sized {
    /// The values that words say.
    ghost fit: { Self → Type 0 };

    /// The words of a value.
    ghost texts: { Self → List (List ℕ) };

    /// Whether reading takes memory.
    ghost allocate: { Bool };

    /// The value whose words these are.
    fn read(alloc: Global, args: &[u8]) -> Result<Self, Stop>
        ensures { Finds allocate fit texts (words args.now) result };

    /// Words are of one value, and each is a word.
    ghost spellings: { AreSpellings fit texts };
}

impl Words for () {
    ghost fit = { λ _. Unit {0} };

    ghost texts = { λ _. [] };

    ghost allocate = { false };

    ghost spellings = { no_words };

    fn read(_alloc: Global, args: &[u8]) -> Result<(), Stop> {
        if !is_over(args) {
            return Err(Stop::Wrong);
        }
        Ok(())
    }
}

impl<W: Word, R: Words> Words for (W, R) {
    ghost fit = { λ said. W.fits said.0 × R.fit said.1 };

    ghost texts = { λ said. W.text said.0 ∷ R.texts said.1 };

    ghost allocate = { W.allocates || R.allocate };

    ghost spellings = { W.spelling & R.spellings };

    fn read(alloc: Global, args: &[u8]) -> Result<(W, R), Stop> {
        let (word, rest) = next_word(args).ok_or(Stop::Wrong)?;
        let first = W::read(alloc, word)?;
        let others = R::read(alloc, rest)?;
        Ok((first, others))
    }
}

impl<W: Word + Copy> Words for Items<W> {
    ghost fit = { AreItems W.fits };

    ghost texts = { map W.text };

    ghost allocate = { W.allocates };

    ghost spellings = { items_of_words W.spelling };

    fn read(alloc: Global, args: &[u8]) -> Result<Items<W>, Stop> {
        let Some((word, after)) = next_word(args) else {
            return Err(Stop::Wrong);
        };
        let mut items = Items::one(W::read(alloc, word)?);
        let mut rest = after;
        while let Some((word, after)) = next_word(rest) {
            let item = W::read(alloc, word)?;
            if items.as_slice().len() >= MAX_BRANCHES {
                return Err(Stop::Wrong);
            }
            items.push(item);
            rest = after;
        }
        Ok(items)
    }
}

impl<W: Word> Words for Sequence<W> {
    ghost fit = { All W.fits };

    ghost texts = { map W.text };

    ghost allocate = { true };

    ghost spellings = { list_of_words W.spelling };

    fn read(alloc: Global, args: &[u8]) -> Result<Sequence<W>, Stop> {
        let mut all = Vec::new(alloc);
        let mut rest = args;
        while let Some((word, after)) = next_word(rest) {
            all.push(W::read(alloc, word)?)?;
            rest = after;
        }
        Ok(Sequence::new(all))
    }
}

/// Whether a word is this one.
pub(crate) fn is_word(word: &[u8], name: &[u8]) -> bool
    ensures { IsTrue result ↔ (word.now ≡ name.now) }
{
    word == name
}
