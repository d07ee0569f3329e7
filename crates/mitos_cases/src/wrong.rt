//! What makes a topic or a case malformed.
use std::alloc::{AllocError, AllocFailed};

/// What is wrong with a line, or with the case that begins there, in words.
#[derive(Clone, Copy)]
pub(crate) struct Wrong(pub(crate) &'static str);

impl Wrong {
    pub(crate) const MEMORY: Wrong = Wrong("memory ran out");

    pub(crate) const NO_NAME: Wrong = Wrong("the case has no name");

    pub(crate) const NAME_TWICE: Wrong = Wrong("an earlier case has this name");

    pub(crate) const CONTROL: Wrong = Wrong(
        "the line has a byte that is not printed: write an escape",
    );

    pub(crate) const ENDS_IN_BLANK: Wrong = Wrong("the line ends in a blank: write \\x20");

    pub(crate) const NO_BLANK: Wrong = Wrong("content stands after | and one blank");

    pub(crate) const STRAY: Wrong = Wrong("the content belongs to no directive");

    pub(crate) const UNKNOWN: Wrong = Wrong("no such directive stands here");

    pub(crate) const NO_CONTENT: Wrong = Wrong("the directive wants content lines");

    pub(crate) const CONTENT_HERE: Wrong = Wrong("the directive takes no content lines");

    pub(crate) const WORDS_HERE: Wrong = Wrong("the directive takes no words");

    pub(crate) const WORD: Wrong = Wrong(
        "words stand between single blanks, an empty one is \"\", and a quote is \\x22",
    );

    pub(crate) const NOT_TEXT: Wrong = Wrong("the word is not UTF-8");

    pub(crate) const NOT_ONE_WORD: Wrong = Wrong("one word is wanted");

    pub(crate) const NOT_NUMBER: Wrong = Wrong("a number in decimal digits is wanted");

    pub(crate) const NOT_OUTSIDE: Wrong = Wrong("folder, outbox or console is wanted");

    pub(crate) const NO_ESCAPE: Wrong = Wrong("there is no such escape");

    pub(crate) const UNFINISHED: Wrong = Wrong("the escape is not finished");

    pub(crate) const NESTED: Wrong = Wrong(
        "a repeated part stands in another one, or has no beginning",
    );

    pub(crate) const UNCOUNTED: Wrong = Wrong(
        "a number that is counted stands in no repeated part",
    );

    pub(crate) const TWICE: Wrong = Wrong("it is stated twice, or in two ways");

    pub(crate) const NO_WORDS: Wrong = Wrong("no words are stated");

    pub(crate) const NO_STATUS: Wrong = Wrong("no status is stated");

    pub(crate) const NO_CONSOLE: Wrong = Wrong("what the console gains is not stated");

    pub(crate) const NO_STAGED: Wrong = Wrong("what is staged is not stated");

    pub(crate) const NO_PUBLISHED: Wrong = Wrong("what is published is not stated");
}

impl From<AllocError> for Wrong {
    fn from(_: AllocError) -> Self {
        Wrong::MEMORY
    }
}

impl<T: Drop> From<AllocFailed<T>> for Wrong {
    fn from(_: AllocFailed<T>) -> Self {
        Wrong::MEMORY
    }
}
