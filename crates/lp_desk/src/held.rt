//! A book as it lies in a lock.
ghost use Rattle.std.specs.Prelude.{◌≡◌};

use crate::Book;
use lp_board::DeskName;
use lp_model::Consistency;
use std::sync::Wait;

/// A book as it lies in a lock, which asks that what it holds can be let go. The board can't be given up without waiting
/// for its readers, so what waits for them lies beside the book.
pub(crate) struct Held<M: Consistency, N: DeskName, R: Wait + Drop> {
    pub(crate) book: Book<M, N>,
    pub(crate) rt: R,
}

impl<M: Consistency, N: DeskName, R: Wait + Drop> Held<M, N, R> {
    /// The book.
    pub(crate) fn into_book(self) -> Book<M, N>
        ensures { result ≡ self.book }
    {
        let Self { book, rt: _ } = self;
        book
    }
}

impl<M: Consistency, N: DeskName, R: Wait + Drop> Drop for Held<M, N, R> {
    fn drop(self) {
        let Self { book, rt } = self;
        drop(book.shut(&rt));
    }
}
