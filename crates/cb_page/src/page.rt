//! The bytes of one page.
ghost use Rattle.std.specs.Prelude.{◌≡◌, ℕ, List, length, replicate, IfOk};

use std::alloc::{AllocError, Global};
use std::marker::Model;

/// The bytes of a page. In contracts it is the list of its bytes.
///
/// A page doesn't know the store's page size. Each call that takes a page says which length it
/// wants.
#[derive(Debug)]
pub struct Page {
    bytes: Vec<u8>,
}

// By hand: see docs/PROVING.md, "Drops".
impl Drop for Page {
    fn drop(self) {
        let Page { bytes: _ } = self;
    }
}

impl Model for Page {
    ghost Value = { List ℕ };

    ghost view = { λ a. a.bytes.items };
}

impl Page {
    /// A page of these bytes, which are not copied.
    pub fn from_vec(bytes: Vec<u8>) -> Page
        ensures { result ≡ bytes.items }
    {
        Page { bytes }
    }

    /// A page of so many bytes, all of them 0. It is refused only if memory is.
    pub fn zeros(alloc: Global, size: usize) -> Result<Page, AllocError>
        ensures { IfOk result (λ p. p ≡ replicate size 0) }
    {
        Ok(Page {
            bytes: vec![in alloc; 0u8; size]?,
        })
    }

    /// A page with a copy of these bytes. It is refused only if memory is.
    pub fn copy_of(alloc: Global, bytes: &[u8]) -> Result<Page, AllocError>
        ensures { IfOk result (λ p. p ≡ bytes.now) }
    {
        Ok(Page {
            bytes: Vec::from_slice(alloc, bytes)?,
        })
    }

    /// The bytes.
    pub fn as_slice(&self) -> &[u8]
        ensures { result.now ≡ self.now }
    {
        self.bytes.as_slice()
    }

    /// How many bytes the page has.
    pub fn len(&self) -> usize
        ensures { result ≡ length self.now }
    {
        self.bytes.len()
    }

    /// Overwrites the bytes with as many others. It takes no memory.
    pub fn write(&mut self, bytes: &[u8])
        requires { length bytes.now ≡ length self.old }
        ensures { self.new ≡ bytes.now }
    {
        self.bytes.as_mut_slice().copy_from_slice(bytes);
    }
}

/// The law of these calls: a page is the bytes that it was made of, and as long.
fn law(alloc: Global, bytes: Vec<u8>) -> Result<(Page, usize), AllocError>
    ensures { IfOk result (λ made. made ≡ (bytes.items, length bytes.items)) }
{
    let page = Page::from_vec(bytes);
    let copy = Page::copy_of(alloc, page.as_slice())?;
    let mut other = Page::zeros(alloc, copy.len())?;
    other.write(copy.as_slice());
    let len = other.len();
    Ok((other, len))
}
