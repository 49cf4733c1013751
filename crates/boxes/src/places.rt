//! Places in the caller's bytes, and the parts there: RULES 7.7.
ghost use Rattle.std.specs.Prelude.{◌≡◌, ◌+◌, ◌<◌, ◌^◌, length};
ghost use Rattle.boxes.specs.Places.{found_place, place_of, PartAt, child_in, place_moved, moved_walk};
ghost use Rattle.boxes.specs.Walks.{offset_in, Within};

use crate::search::find_child;
use crate::{Place, Walk};
use refusal::{Reason, Refusal};

impl Place {
    // This place in a part, as a place in the whole; the part starts at `by`.
    pub(crate) fn moved(self, by: usize) -> Place
        requires { by + self.start < 2 ^ 64 }
        ensures { result ≡ place_moved by self }
    {
        Place {
            start: by + self.start,
            len: self.len,
        }
    }
}

impl Walk {
    // The place of what was found; none, however the boxes end without it.
    pub(crate) fn place(self) -> Option<Place>
        ensures { result ≡ found_place self }
    {
        match self {
            Walk::Found(place) => Some(place),
            Walk::End | Walk::Bad { at: _ } => None,
        }
    }

    // The place of what was found, or why there is none (RULES 7.6).
    pub(crate) fn answer(self) -> Result<Place, Refusal>
        ensures { result ≡ place_of self }
    {
        match self {
            Walk::Found(place) => Ok(place),
            Walk::End => Err(Reason::Missing.at(0)),
            Walk::Bad { at } => Err(Reason::Broken.at(at)),
        }
    }

    // How this walk in a part ended, with offsets in the whole; the part starts at `by`.
    pub(crate) fn moved(self, by: usize) -> Walk
        requires { by + offset_in self < 2 ^ 64 }
        ensures { result ≡ moved_walk by self }
    {
        match self {
            Walk::Found(place) => Walk::Found(place.moved(by)),
            Walk::End => Walk::End,
            Walk::Bad { at } => Walk::Bad { at: by + at },
        }
    }
}

// The part of the caller's bytes at a place; empty where there is none.
pub(crate) fn part(bytes: &[u8], place: Option<Place>) -> &[u8]
    requires { Within (length bytes.now) place }
    ensures { PartAt bytes.entry place result }
{
    let Some(Place { start, len }) = place else {
        return &bytes[..0];
    };
    &bytes[start..start + len]
}

/// The payload of the first child of a type, in the bytes that are lent; empty where there is none,
/// however the boxes end without it (RULES 7.8, 8.1).
#[tactic(auto, using(crate::proofs::Within::walked_within))]
pub fn inner_child(bytes: &[u8], kind: u32) -> &[u8]
    ensures { PartAt bytes.entry (child_in kind bytes.now) result }
{
    part(bytes, find_child(bytes, kind).place())
}
