// Where two words part.
ghost use Rattle.std.specs.Prelude.{◌≡◌, ℕ, length, MatchOption};
ghost use Rattle.norm.specs.Norms.{Earlier};
ghost use Rattle.norm.specs.Skeletons.{norm_at};
ghost use Rattle.comparison.specs.Treating.{ForkAt, OneBegins};
ghost use Rattle.comparison.specs.Trying.{parts_at};

use crate::parting::Parting;
use norm::Skeleton;

// The symbols at the first place where the words have different ones; none where one of them begins with the
// other.
pub(crate) fn first_difference(one: &[u8], two: &[u8]) -> Option<(u8, u8)>
    ensures { MatchOption result (OneBegins one.now two.now) (λ p. ForkAt one.now two.now p.0 p.1) }
{
    let mut left = one;
    let mut right = two;
    while let (Some((a, more_left)), Some((b, more_right))) = (
        left.split_first(),
        right.split_first(),
    ) {
        if a != b {
            return Some((*a, *b));
        }
        left = more_left;
        right = more_right;
    }
    None
}

// How many symbols the words have in common before they part.
fn common_length(one: &[u8], two: &[u8]) -> usize
    ensures { (A B : ℕ) (f : ForkAt one.now two.now A B) → result ≡ length f.common }
{
    let mut left = one;
    let mut right = two;
    while let (Some((a, more_left)), Some((b, more_right))) = (
        left.split_first(),
        right.split_first(),
    ) {
        if a != b {
            break;
        }
        left = more_left;
        right = more_right;
    }
    one.len() - left.len()
}

// Where the words part; none where one of them begins with the other.
pub(crate) fn parting_of<'a>(
    skeleton: &Skeleton,
    one: &'a [u8],
    two: &'a [u8],
) -> Option<Parting<'a>>
    ensures later_one { (A B : ℕ) (f : ForkAt one.now two.now A B) → Earlier (norm_at skeleton.now) B A → parts_at result f.common A B f.left }
    ensures later_two { (A B : ℕ) (f : ForkAt one.now two.now A B) → Earlier (norm_at skeleton.now) A B → parts_at result f.common B A f.right }
{
    let at = common_length(one, two);
    let common = one.get(..at)?;
    let (a, one_end) = one.get(at..)?.split_first()?;
    let (b, two_end) = two.get(at..)?.split_first()?;
    if skeleton.earlier(*a, *b) {
        return Some(Parting {
            common,
            later: *b,
            earlier: *a,
            later_end: two_end,
        });
    }
    Some(Parting {
        common,
        later: *a,
        earlier: *b,
        later_end: one_end,
    })
}
