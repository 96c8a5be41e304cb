//! Where the copying of an image is.

use store_image_model::CopyPlace;

/// How far the copying of an image has come.
#[derive(Clone, Copy, Debug, PartialEq, Eq)]
pub enum Copying {
    /// No image is under way.
    Idle,
    /// An image is copied in steps, and goes on here; or it is whole, and is to be made current.
    Steps(Option<CopyPlace>),
    /// An image was given up, and a whole one is to be taken at once.
    GivenUp,
}
