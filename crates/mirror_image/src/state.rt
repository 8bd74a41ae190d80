// Whether a mirror was paired.
ghost use Rattle.std.specs.Prelude.{◌<◌, ◌^◌};

use crate::halves::Halves;
use line_image::Image;

/// What a mirror is over: halves that were paired, or two that are never called.
#[derive(Drop)]
pub(crate) enum State<P: Drop, C: Drop> {
    Paired(P),
    Closed(C),
}

/// One image over two halves, each of which has one line more than the mirror shows: the label, at its end.
///
/// A read asks the first half, or the one that is left. A write or a fence goes to both. Where one half fails, the other is
/// marked as left alone before the call goes on with it, and the one that failed is used no more.
#[derive(Drop)]
pub struct Mirror<A: Image, B: Image> {
    pub(crate) state: State<Halves<A, B>, (A, B)>,
    pub(crate) failures: u64,
    ghost fits: { failures < 2 ^ 64 },
}
