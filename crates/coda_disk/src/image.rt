// The bytes that a crash left.
ghost use Rattle.std.specs.Prelude.{◌≡◌, List, ℕ};

use std::marker::Model;

/// The bytes that a crash left of a disk. Contracts see the list of them.
#[derive(Drop)]
pub struct Image {
    items: Vec<u8>,
}

impl Model for Image {
    ghost Value = { List ℕ };

    ghost view = { λ i. i.items.items };
}

impl Image {
    // These bytes.
    pub(crate) fn new(items: Vec<u8>) -> Image
        ensures { result ≡ items.items }
    {
        Image { items }
    }

    /// The bytes.
    pub fn bytes(&self) -> &[u8]
        ensures { result.now ≡ self.now }
    {
        &self.items
    }
}
