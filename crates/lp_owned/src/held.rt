//! An owned book as it lies in a lock.
ghost use Rattle.std.specs.Prelude.{◌≡◌};

use crate::book::OwnedBook;
use lp_board::DeskName;
use lp_model::Consistency;
use lp_parts::Place;
use std::sync::Wait;

/// An owned book as it lies in a lock, which asks that what it holds can be let go: what waits for the board's readers lies
/// beside the book.
pub(crate) struct Held<M: Consistency, N: DeskName + Place, R: Wait + Drop> {
    pub(crate) book: OwnedBook<M, N>,
    pub(crate) rt: R,
}

impl<M: Consistency, N: DeskName + Place, R: Wait + Drop> Held<M, N, R> {
    /// The book.
    pub(crate) fn into_book(self) -> OwnedBook<M, N>
        ensures { result ≡ self.book }
    {
        let Self { book, rt: _ } = self;
        book
    }
}

impl<M: Consistency, N: DeskName + Place, R: Wait + Drop> Drop for Held<M, N, R> {
    fn drop(self) {
        let Self { book, rt } = self;
        drop(book.shut(&rt));
    }
}
