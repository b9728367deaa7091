//! The words of a line.

ghost use Rattle.std.specs.Prelude.{◌≡◌, [], ◌∷◌, MatchOption, option_copied, option_map};
ghost use Rattle.text_lines.specs.Texts.{one_of, two_of};
ghost use Rattle.event_text.specs.Words.{words_of, two_or_three_of};

use text_lines::{Excerpt, trim, trim_start, word};

/// The words of a line, which spaces and tabs separate.
#[derive(Drop)]
pub(crate) struct Words<'a> {
    line: &'a [u8],
    rest: &'a [u8],
}

impl<'a> Words<'a> {
    /// The words of a line, from its first on.
    pub(crate) fn new(line: &'a [u8]) -> Words<'a>
        ensures { result.rest.now ≡ line.now }
    {
        Words { line, rest: line }
    }

    /// The line, to be shown.
    pub(crate) fn shown(&self) -> Excerpt {
        Excerpt::of(trim(self.line))
    }

    /// The next word, if there is one.
    #[tactic(auto, using(crate::proofs::WordLemmas::no_word, crate::proofs::WordLemmas::next_word))]
    pub(crate) fn next(&mut self) -> Option<&'a [u8]>
        ensures { MatchOption result
            (words_of self.old.rest.now ≡ [])
            (λ word. words_of self.old.rest.now ≡ word.now ∷ words_of self.new.rest.now) }
    {
        let text = trim_start(self.rest);
        if text.is_empty() {
            return None;
        }
        let (word, rest) = word(text);
        self.rest = rest;
        Some(word)
    }

    /// The word that is left, if there is just one.
    pub(crate) fn one(mut self) -> Option<&'a [u8]>
        ensures { option_copied result ≡ one_of (words_of self.entry.rest.now) }
    {
        let word = self.next()?;
        match self.next() {
            None => Some(word),
            Some(_) => None,
        }
    }

    /// The two words that are left, if there are just two.
    pub(crate) fn two(mut self) -> Option<(&'a [u8], &'a [u8])>
        ensures { option_map (λ words. (words.0.now, words.1.now)) result ≡ two_of (words_of self.entry.rest.now) }
    {
        let first = self.next()?;
        let second = self.one()?;
        Some((first, second))
    }

    /// The two or three words that are left, if there are just so many. The third is empty where it
    /// is missing.
    pub(crate) fn two_or_three(mut self) -> Option<(&'a [u8], &'a [u8], &'a [u8])>
        ensures { option_map (λ words. (words.0.now, words.1.now, words.2.now)) result ≡ two_or_three_of (words_of self.entry.rest.now) }
    {
        let first = self.next()?;
        let second = self.next()?;
        match self.next() {
            None => Some((first, second, &[])),
            Some(third) => match self.next() {
                None => Some((first, second, third)),
                Some(_) => None,
            },
        }
    }
}
