//! The pieces into which the tasks of a scan are cut.
ghost use Rattle.std.specs.Prelude.{◌≡◌, ◌<◌, ◌≤◌, length};
ghost use Rattle.lp_scan.specs.inside.Pieces.{piece_start, piece_of};

use lp_stack::View;

/// Where a piece begins. The pieces differ in length by one task at most, and the longer ones come first.
fn start_of(tasks: usize, workers: usize, piece: usize) -> usize
    requires some { 0 < workers }
    requires piece { piece ≤ workers }
    ensures value { result ≡ piece_start tasks workers piece }
    ensures within { result ≤ tasks }
{
    piece * (tasks / workers) + piece.min(tasks % workers)
}

/// The tasks of a piece, borrowed.
pub(super) fn piece<'a, 'b>(views: &'b [View<'a>], workers: usize, piece: usize) -> &'b [View<'a>]
    requires { piece < workers }
    ensures { result.now ≡ piece_of views.now workers piece }
{
    let from = start_of(views.len(), workers, piece);
    let to = start_of(views.len(), workers, piece + 1);
    &views[from..to]
}
