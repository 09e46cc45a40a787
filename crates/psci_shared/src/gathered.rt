//! What comes of gathering.

ghost use Rattle.std.specs.Prelude.{◌≡◌};

use crate::fault::GatherCause;

/// All that a machine was asked, and by whom: each place of the book stands in one pass.
#[derive(Drop)]
pub struct BooksOf<B, P> {
    /// The machine with its book.
    pub book: B,
    /// The passes.
    pub passes: Vec<P>,
}

/// Why passes were not gathered, with all that was handed in.
#[derive(Drop)]
pub struct GatherFaultOf<L, X, P> {
    /// Why.
    pub cause: GatherCause,
    /// What the lock guarded.
    pub locked: L,
    /// The status words, or `()` where there are none.
    pub words: X,
    /// How many passes were made.
    pub made: u32,
    /// The passes.
    pub passes: Vec<P>,
}

impl<L: Drop, X: Drop, P: Drop> GatherFaultOf<L, X, P> {
    /// The passes were not gathered for this cause.
    pub fn of(
        cause: GatherCause,
        locked: L,
        words: X,
        made: u32,
        passes: Vec<P>,
    ) -> GatherFaultOf<L, X, P>
        ensures cause { result.cause ≡ cause }
        ensures locked { result.locked ≡ locked }
        ensures words { result.words ≡ words }
        ensures made { result.made ≡ made }
        ensures passes { result.passes ≡ passes }
    {
        GatherFaultOf {
            cause,
            locked,
            words,
            made,
            passes,
        }
    }
}
