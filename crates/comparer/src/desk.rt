ghost use Rattle.std.specs.Prelude.{◌≤◌};

use agreement::Workspace;
use survey::Survey;

// A grammar that is not refused, taken up, and the workspace of comparisons over it. What the workspace holds between
// calls is free.
#[derive(Drop)]
pub struct Desk<T> {
    pub(crate) survey: Survey<T>,
    pub(crate) work: Workspace<T>,
    ghost some: { 1 ≤ survey.skeleton.words.count },
}
