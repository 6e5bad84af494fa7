// An accepted package.
ghost use Rattle.std.specs.Prelude.{◌≡◌, true};
ghost use Rattle.layout.specs.Bytes.{are_bytes};
ghost use Rattle.layout.specs.Packages.{accepts, held};
ghost use Rattle.package.specs.Declares.{contents_of};
ghost use Rattle.package.specs.Once.{same_contents};

use super::contents::Contents;
use std::alloc::AllocError;

// The bytes of a package that was accepted, and what they declare. Only loading makes one.
#[derive(Drop)]
pub struct Package {
    pub(crate) bytes: Vec<u8>,
    pub(crate) contents: Contents,
    ghost octets: { are_bytes bytes.items ≡ true },
    ghost accepted: { accepts bytes.items ≡ true },
    ghost declares: { contents_of contents ≡ held bytes.items } by { same_contents (contents_of contents) (held bytes.items) },
}

impl Package {
    // The package's own copy of its bytes.
    pub fn bytes(&self) -> &[u8]
        ensures { result.now ≡ self.now.bytes.items }
    {
        self.bytes.as_slice()
    }

    // What the package declares.
    pub fn contents(&self) -> &Contents
        ensures { result.now ≡ self.now.contents }
    {
        &self.contents
    }
}

// The same package once more, with bytes and contents of its own. It is not derived, since there are ghost fields.
impl Clone for Package {
    ghost is_clone = { λ p q. (q.bytes.items ≡ p.bytes.items) × (contents_of q.contents ≡ contents_of p.contents) };

    fn clone(&self) -> Result<Package, AllocError> {
        Ok(Package {
            bytes: Vec::from_slice(*self.bytes.allocator(), &self.bytes)?,
            contents: self.contents.clone()?,
        })
    }
}
