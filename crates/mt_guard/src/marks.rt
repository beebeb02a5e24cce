// What is known of variables.
ghost use Rattle.std.specs.Prelude.{◌≡◌, ◌<◌, length, slice_get, IfOk};
ghost use Rattle.mt_guard.specs.Deciding.{is_opened, is_smaller, is_smaller_item, mark_by};
ghost use Rattle.mt_guard.specs.Marking.{args_in, mark_of, marked, marks_of, ArgsBelow};
ghost use Rattle.mt_pool.specs.Region.{tree_at};
ghost use Rattle.mt_term.specs.Spines.{item_at};

use mt_pool::{Node, Pool, TermId};
use mt_term::{OutOfMemory, deeper};

/// What is known of a variable: it is the one at the recursive place, or smaller than that one, or
/// neither.
#[derive(Clone, Copy)]
pub enum Mark {
    Place,
    Smaller,
    Other,
}

/// Marks of variables, the innermost first.
#[derive(Clone, Copy)]
pub enum Marks<'a> {
    Empty,
    More(Mark, &'a Marks<'a>),
    /// So many variables of which nothing is known, before the rest.
    Others(usize, &'a Marks<'a>),
}

/// The arguments of a term, the first of which is the innermost.
#[derive(Clone, Copy)]
pub enum Args<'a> {
    End,
    More(TermId, &'a Args<'a>),
}

/// The mark of a branch variable, by whether it stands at a recursive place.
pub fn mark_by(recursive: bool) -> Mark
    ensures { mark_of result ≡ mark_by recursive }
{
    if recursive {
        Mark::Smaller
    } else {
        Mark::Other
    }
}

// The mark of a variable.
#[tactic(auto, using(crate::proofs::Marking::mark_rules))]
fn mark_at(marks: &Marks<'_>, index: usize, depth_left: usize) -> Result<Option<Mark>, OutOfMemory>
    ensures { IfOk result (λ o. marked o ≡ slice_get (marks_of marks.now) index) }
{
    let depth_left = deeper(depth_left)?;
    match marks {
        Marks::Empty => Ok(None),
        Marks::More(mark, rest) => {
            if index == 0 {
                return Ok(Some(*mark));
            }
            mark_at(rest, index - 1, depth_left)
        }
        Marks::Others(many, rest) => {
            if index < *many {
                return Ok(Some(Mark::Other));
            }
            mark_at(rest, index - *many, depth_left)
        }
    }
}

/// Whether a term is a smaller variable, or an application of one.
#[tactic(auto, using(mt_pool::proofs::Region::kept))]
pub fn is_smaller(
    pool: &Pool,
    marks: &Marks<'_>,
    t: TermId,
    depth_left: usize,
) -> Result<bool, OutOfMemory>
    requires { t.at < length pool.now }
    ensures { IfOk result (λ b. b ≡ is_smaller (marks_of marks.now) (tree_at pool.now t)) }
{
    let depth_left = deeper(depth_left)?;
    match pool.node(t) {
        Node::Var(i) => match mark_at(marks, *i, depth_left)? {
            Some(Mark::Smaller) => Ok(true),
            Some(Mark::Place) | Some(Mark::Other) | None => Ok(false),
        },
        Node::App(g, _) => is_smaller(pool, marks, *g, depth_left),
        Node::Sort(_)
        | Node::Prod(_, _, _)
        | Node::Lam(_, _, _)
        | Node::Const(_)
        | Node::Ind(_)
        | Node::Con(_, _)
        | Node::Match(_, _, _, _)
        | Node::Meta(_, _) => Ok(false),
    }
}

/// Whether a match on a term makes branch variables smaller.
#[tactic(auto, using(mt_pool::proofs::Region::kept))]
pub fn is_opened(
    pool: &Pool,
    marks: &Marks<'_>,
    t: TermId,
    depth_left: usize,
) -> Result<bool, OutOfMemory>
    requires { t.at < length pool.now }
    ensures { IfOk result (λ b. b ≡ is_opened (marks_of marks.now) (tree_at pool.now t)) }
{
    match pool.node(t) {
        Node::Var(i) => match mark_at(marks, *i, depth_left)? {
            Some(Mark::Place) | Some(Mark::Smaller) => Ok(true),
            Some(Mark::Other) | None => Ok(false),
        },
        Node::Sort(_)
        | Node::Prod(_, _, _)
        | Node::Lam(_, _, _)
        | Node::App(_, _)
        | Node::Const(_)
        | Node::Ind(_)
        | Node::Con(_, _)
        | Node::Match(_, _, _, _)
        | Node::Meta(_, _) => is_smaller(pool, marks, t, depth_left),
    }
}

/// Whether the argument at a place is smaller.
pub fn is_smaller_at(
    pool: &Pool,
    marks: &Marks<'_>,
    args: &Args<'_>,
    place: usize,
    depth_left: usize,
) -> Result<bool, OutOfMemory>
    requires { ArgsBelow (length pool.now) args.now }
    ensures { IfOk result (λ b. b ≡ is_smaller_item (marks_of marks.now) (item_at (args_in pool.now args.now) place)) }
{
    let depth_left = deeper(depth_left)?;
    match args {
        Args::End => Ok(false),
        Args::More(a, rest) => {
            if place == 0 {
                return is_smaller(pool, marks, *a, depth_left);
            }
            is_smaller_at(pool, marks, rest, place - 1, depth_left)
        }
    }
}
