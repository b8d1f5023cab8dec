// A form as a key of a set: lent to be looked for, or owned to be kept.
ghost use Rattle.std.specs.Prelude.{◌≡◌};
ghost use Rattle.std.specs.Cow.{cow_slice_items};
ghost use Rattle.std.specs.Cmp.Lexicographic.{bytes_decides};
ghost use Rattle.std.proofs.Common.{ap};
ghost use Rattle.correspondence.specs.Hashed.{hashed};

use std::borrow::CowSlice;
use std::hash::{Hash, Hasher};

// How much of a form is hashed, besides its length.
const FRONT: usize = 65_536;

#[derive(PartialEq, Eq, Drop)]
pub(crate) struct Form<'a> {
    bytes: CowSlice<'a, u8>,
}

impl<'a> Form<'a> {
    pub(crate) fn lent(bytes: &'a [u8]) -> Form<'a>
        ensures { cow_slice_items result.bytes ≡ bytes.now }
    {
        Form {
            bytes: CowSlice::Borrowed(bytes),
        }
    }

    pub(crate) fn owned(bytes: Vec<u8>) -> Form<'a>
        ensures { cow_slice_items result.bytes ≡ bytes.items }
    {
        Form {
            bytes: CowSlice::Owned(bytes),
        }
    }
}

// Written by hand, since a derive writes all bytes one by one: `letters` then takes 1.7 times as long for a form of 16 MB.
impl<'a> Hash for Form<'a> {
    ghost hash_input = { λ f. hashed (cow_slice_items f.bytes) };

    ghost respects_eq = { λ x y h. ap hashed ((bytes_decides (cow_slice_items x.bytes) (cow_slice_items y.bytes)).0 h) };

    fn hash<H: Hasher>(&self, state: &mut H) {
        let bytes = self.bytes.as_slice();
        state.write_usize(bytes.len());
        state.write(&bytes[..bytes.len().min(FRONT)]);
    }
}
