// A file with a survey of its grammar.
ghost use Rattle.layout.specs.Reading.{checked_any};
ghost use Rattle.inspect.specs.Told.{Tells};

use file_grammar::FileGrammar;
use format::Checked;
use layout::FaultCode;
use stated::check_any;
use survey::{Survey, survey};
use tally::Untallied;

// A checked file, and the survey of its grammar without the tallies.
#[derive(Drop)]
pub struct Inspected<'a> {
    pub file: Checked<'a>,
    pub survey: Survey<Untallied>,
}

// Checks a file for the kinds that it states itself, and surveys its grammar; or the code of the first
// fault. Refusals, norms and first inputs do not depend on tallies, so these are left aside.
pub fn inspect(bytes: &[u8]) -> Result<Inspected<'_>, FaultCode>
    ensures { Tells (checked_any bytes.now) result }
{
    let file = check_any(bytes)?;
    let survey = survey(&FileGrammar::<Untallied>::of_file(file))?;
    Ok(Inspected { file, survey })
}
