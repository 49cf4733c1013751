// Where the names of a text's sources stand.
ghost use Rattle.std.specs.Prelude.{◌≡◌, length, replicate};
ghost use Rattle.table_text.specs.Read.{names_of, names_read, names_left};

use crate::puts::put_names;
use crate::staging::stage;
use refusal::{Reason, Refusal};

// The names, with the working room left as it may.
#[tactic(auto, unfolding(crate::specs::Read::named_by, crate::specs::Read::names_read, crate::specs::Read::names_left))]
fn names_into(text: &[u8], out: &mut [u64], work: &mut [u64]) -> Result<usize, Refusal>
    ensures answer { result ≡ names_read (names_of text.now (length out.old) (length work.old)) }
    ensures names { out.new
        ≡ names_left text.now (names_of text.now (length out.old) (length work.old)) out.old }
{
    let staged = stage(text, work)?;
    if out.len() < 2 * staged.sources {
        return Err(Reason::NoRoom.at(0));
    }
    put_names(text, staged.lists.sources, out);
    Ok(staged.sources)
}

/// Where the names of a table's sources stand in its text: two words each, the offset of what stands
/// between the quotation marks of its member `name`, in bytes, and how many bytes that is, escapes
/// as they stand. Answers how many sources there are. Refuses as `read_table` does before its check:
/// 60, 32 with index 1, 61 to 64, 2, and 32 with index 0 where fewer than two words a source are
/// lent; then nothing is written. The working room is left zero.
pub fn source_names(text: &[u8], out: &mut [u64], work: &mut [u64]) -> Result<usize, Refusal>
    ensures answer { result ≡ names_read (names_of text.now (length out.old) (length work.old)) }
    ensures names { out.new
        ≡ names_left text.now (names_of text.now (length out.old) (length work.old)) out.old }
    ensures cleared { work.new ≡ replicate (length work.old) 0 }
{
    let answer = names_into(text, out, work);
    work.fill(0);
    answer
}
