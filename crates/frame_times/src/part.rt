// Parts of a moov: RULES 8.1.
ghost use Rattle.std.specs.Prelude.{◌≡◌, ◌+◌, ◌≤◌, length};
ghost use Rattle.boxes.specs.Boxes.{most_bytes};
ghost use Rattle.frame_times.specs.Times.{needed};

use boxes::Walk;
use boxes::read::code;
use boxes::search::find_child;
use refusal::{Reason, Refusal};

/// What has to be there: else 31.
pub(crate) fn needed<T>(value: Option<T>) -> Result<T, Refusal>
    ensures { result ≡ needed value }
{
    value.ok_or(Reason::Missing.at(0))
}

/// A part of a moov: its bytes, and where in the moov they start.
#[derive(Clone, Copy)]
pub(crate) struct Part<'a> {
    pub bytes: &'a [u8],
    pub base: usize,
    ghost within: { base + length bytes.now ≤ most_bytes },
}

impl<'a> Part<'a> {
    ghost use Rattle.boxes.specs.Bytes.{be32_at};
    ghost use Rattle.boxes.specs.Walks.{WalkStays};
    ghost use Rattle.frame_times.specs.Times.{found, child};
    ghost use Rattle.frame_times.specs.Found.{part_seen, answer_seen};

    /// The payload that a walk over this part found, which has to be there: else 31, or 36 with the
    /// broken header's offset in the moov (RULES 7.6).
    pub(crate) fn found(self, walk: Walk) -> Result<Part<'a>, Refusal>
        requires { WalkStays (length self.bytes.now) walk }
        ensures { answer_seen part_seen result ≡ found (part_seen self.entry) walk }
    {
        match walk {
            Walk::Found(place) => Ok(Part {
                bytes: &self.bytes[place.start..place.start + place.len],
                base: self.base + place.start,
            }),
            Walk::End => Err(Reason::Missing.at(0)),
            Walk::Bad { at } => Err(Reason::Broken.at(self.base + at)),
        }
    }

    /// The payload of the first child of a type, which has to be there likewise.
    pub(crate) fn child(self, kind: &[u8; 4]) -> Result<Part<'a>, Refusal>
        ensures { answer_seen part_seen result
            ≡ child found (part_seen self.entry) (be32_at kind.now 0) }
    {
        self.found(find_child(self.bytes, code(kind)))
    }
}
