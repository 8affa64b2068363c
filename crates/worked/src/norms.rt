// Norms and first inputs.
use crate::reading::NAMES;
use grammar::ListGrammar;
use layout::FaultCode;
use norm::{MAX_NORM, Skeleton};
use std::io;
use survey::survey;
use tally::FootMm;

// Says the norm and the first input of each symbol.
fn say_norms(rt: &impl Print, skeleton: &Skeleton) -> io::Result<()> {
    for (symbol, name) in (0..skeleton.words.count).zip(NAMES) {
        let name = char::from(name);
        let norm = skeleton.norm(symbol);
        let mut room = [0; MAX_NORM as usize];
        // A first input has as many letters as the norm.
        let len = skeleton.first_input(&[symbol], &mut room).unwrap_or(0);
        let letters = room.get(..len).unwrap_or(&[]);
        let letters = std::str::from_utf8(letters).unwrap_or("?");
        println!(rt; "symbol {name}: norm {norm}, first input {letters}")?;
    }
    Ok(())
}

// Surveys the example grammar, and says the norms; or why it is refused.
pub fn survey_symbols(rt: &impl Print, g: &ListGrammar<FootMm>) -> io::Result<()> {
    match survey(g) {
        Ok(survey) => say_norms(rt, survey.skeleton()),
        Err(fault) => {
            let code = FaultCode::from(fault);
            println!(rt; "refused {code}")
        }
    }
}
