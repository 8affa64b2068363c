// A script, cut where what is compared over changes.
ghost use Rattle.std.specs.Prelude.{◌<◌, ◌≤◌, length, IfSome};
ghost use Rattle.std.specs.Iterator.{at_most};

use crate::grammars::Subject;
use crate::script::Line;

// A piece of a script.
#[derive(Clone, Copy)]
pub enum Piece<'a> {
    // What is compared over, and the lines that follow, up to the next `case` or grammar.
    Over(Subject<'a>, &'a [Line]),
    // A line before any grammar.
    Alone(&'a Line),
}

// The subject that the lines begin with, and what follows.
fn split_subject(lines: &[Line]) -> Option<(Subject<'_>, &[Line])>
    ensures { IfSome result (λ p. length p.1.now < length lines.now) }
{
    let (first, rest) = lines.split_first()?;
    match first {
        Line::Grammar(source) => Some((Subject::One(source), rest)),
        Line::Twin => split_twin(rest),
        _ => None,
    }
}

// The twin of the two grammars that the lines begin with, and what follows.
fn split_twin(lines: &[Line]) -> Option<(Subject<'_>, &[Line])>
    ensures { IfSome result (λ p. length p.1.now ≤ length lines.now) }
{
    let (first, rest) = lines.split_first()?;
    let (second, rest) = rest.split_first()?;
    match (first, second) {
        (Line::Grammar(first), Line::Grammar(second)) => {
            Some((Subject::Twin(first, second), rest))
        }
        _ => None,
    }
}

// The lines up to the next `case` or grammar, and what follows.
fn split_lines(lines: &[Line]) -> (&[Line], &[Line])
    ensures { length result.1.now ≤ length lines.now }
{
    match lines.iter().position(|line| line.begins()) {
        Some(end) => lines.split_at(end),
        None => (lines, &[]),
    }
}

// The first piece, and what follows.
fn split_piece(lines: &[Line]) -> Option<(Piece<'_>, &[Line])>
    ensures { IfSome result (λ p. length p.1.now < length lines.now) }
{
    match split_subject(lines) {
        Some((subject, rest)) => {
            let (lines, rest) = split_lines(rest);
            Some((Piece::Over(subject, lines), rest))
        }
        None => {
            let (line, rest) = lines.split_first()?;
            Some((Piece::Alone(line), rest))
        }
    }
}

// The pieces of a script.
#[derive(Drop)]
pub struct Pieces<'a>(pub &'a [Line]);

impl<'a> Iterator for Pieces<'a> {
    type Item = Piece<'a>;

    ghost remaining = { λ s. at_most (length s.0.now) };

    fn next(&mut self) -> Option<Piece<'a>> {
        let (piece, rest) = split_piece(self.0)?;
        self.0 = rest;
        Some(piece)
    }
}
