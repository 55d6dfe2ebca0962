//! The far end of a new connection, on its way to the acceptor.
ghost use Rattle.std.specs.Prelude.{◌≡◌};
ghost use Rattle.wdt_pipes.specs.Pipes.{unused};

use crate::pipe::PipeLink;
use std::sync::Wait;
use wdt_tree::Run;

/// A link over which nothing was said. What comes over a channel is known by its type alone.
#[derive(Drop)]
pub(crate) struct Fresh<R: Wait + Drop, N: Run> {
    pub(crate) link: PipeLink<R, N>,
    ghost unused: { link ≡ unused },
}

impl<R: Wait + Drop, N: Run> Fresh<R, N> {
    /// Of a link that was just made.
    pub(crate) fn of(link: PipeLink<R, N>) -> Fresh<R, N>
        requires { link ≡ unused }
    {
        Fresh { link }
    }
}
