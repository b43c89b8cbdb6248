//! How many images an old edge has.
ghost use Rattle.std.specs.Prelude.{◌≡◌};
ghost use Rattle.edge_images.specs.Partly.{with_edge};

/// The images of an old edge: the same way out of each new point that is reached together with the old edge's point.
#[derive(Clone, Copy, Debug, PartialEq, Eq)]
pub enum Image {
    /// It has none.
    Absent,
    /// It has this new edge alone.
    One(u32),
    /// It has several.
    Many,
}

impl Image {
    /// The same images and this new edge.
    pub(crate) fn with(self, edge: u32) -> Image
        ensures { result ≡ with_edge self edge }
    {
        match self {
            Image::Absent => Image::One(edge),
            Image::One(known) if known == edge => self,
            Image::One(_) | Image::Many => Image::Many,
        }
    }
}
