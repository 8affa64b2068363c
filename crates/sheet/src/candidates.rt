// Candidate rows, as bytes of their own.
ghost use Rattle.sheet.specs.Candidates.{candidates, Offers, CandidatesLaw};

use crate::sheet::Sheet;
use format::rows_section;
use layout::Fault;

// Reads a section of rows over `count` symbols, which the bytes are to be and no more: its rows as a sheet,
// or the first fault in reading order. Places count from the section's first byte. Of the rows over more
// than 32 symbols nothing is said, since a grammar with so many is refused.
#[tactic(auto, using(crate::proofs::Ended::candidates_law, crate::proofs::Ended::front_read))]
pub fn candidate_rows(bytes: &[u8], count: u8) -> Result<Sheet, Fault>
    ensures value { Offers count (candidates count bytes.now) result }
    ensures law { CandidatesLaw count bytes.now }
{
    let (section, left) = rows_section(bytes.len(), bytes, count)?;
    if !left.is_empty() {
        return Err(Fault::Trailing(bytes.len() - left.len()));
    }
    Ok(Sheet::of_rows(section))
}
