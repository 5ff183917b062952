// The caller's memory of an image.

// Plain bytes, so that a part of them can be lent; the image around them says that they are sound.
#[derive(Drop)]
pub struct Lines<'a> {
    pub(crate) bytes: &'a mut [u8],
}
