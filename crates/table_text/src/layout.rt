//! A layout of a table's segments: objects that stand in a text.

ghost use Rattle.std.specs.Prelude.{◌≡◌, false, ◌≤◌, length};
ghost use Rattle.json_tokens.specs.Text.{most_text};

use crate::lists::segment_in;
use rules::Segment;
use table::layout::Segments;

/// The segments that stand at some offsets of a text, as `stage` laid them. Each is read from the
/// text when it is asked for.
#[derive(Clone, Copy)]
pub struct TextSegments<'a> {
    /// The text.
    pub text: &'a [u8],
    /// Where its segments' objects stand.
    pub at: &'a [u64],
    ghost short: { length text.now ≤ most_text },
}

#[tactic(auto, using(crate::proofs::Counts::get_or_mapped))]
impl Segments for TextSegments<'_> {
    ghost use Rattle.table_text.specs.Layout.{segments_at};

    ghost uneven = { λ layout. false };

    ghost listed = { λ layout. segments_at layout };

    fn is_uneven(&self) -> bool {
        false
    }

    fn count(&self) -> usize {
        self.at.len()
    }

    fn segment(&self, k: usize) -> Segment {
        segment_in(self.text, self.at[k] as usize)
    }
}
