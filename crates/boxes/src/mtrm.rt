// The search for the MTRM box of a moov.
ghost use Rattle.std.specs.Prelude.{◌≡◌};
ghost use Rattle.boxes.specs.Boxes.{boxes_of};
ghost use Rattle.boxes.specs.Places.{all_of, only_of, table_in};

use crate::read::code;
use crate::search::find_child;
use crate::size::header_at;
use crate::{Header, Place};
use refusal::{Reason, Refusal};

// The only child of a type. The walk ends at the second (RULES 7.5).
fn only_child(bytes: &[u8], kind: u32) -> Result<Place, Refusal>
    ensures { result ≡ only_of (all_of kind (boxes_of bytes.now)) }
{
    let mut at = 0;
    let mut found = None;
    loop {
        let header = header_at(bytes, at);
        let Header::Whole(child) = header else {
            break found.ok_or(Reason::NoTable.at(0));
        };
        if child.kind == kind {
            if found.is_some() {
                break Err(Reason::SeveralTables.at(0));
            }
            found = Some(child.payload());
        }
        at = child.next;
    }
}

// Where the only MTRM box of a moov's first udta has its payload, in the moov.
#[tactic(auto, unfolding(crate::specs::Places::table_in))]
pub(crate) fn table_of(moov: &[u8]) -> Result<Place, Refusal>
    ensures { result ≡ table_in moov.now }
{
    let udta = find_child(moov, code(b"udta"));
    let Place { start, len } = udta.place().ok_or(Reason::NoTable.at(0))?;
    let table = only_child(&moov[start..start + len], code(b"MTRM"))?;
    Ok(table.moved(start))
}
