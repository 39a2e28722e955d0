//! Which places come to a good end, where one step leads on from each that is no end.

ghost use Rattle.std.specs.Prelude.{◌≡◌, ◌↔◌, ◌<◌, [], All, IfOk, IsTrue, length};
ghost use Rattle.rtl_calm_nets.specs.Reaching.{AreReached, AreRight, AreSettled, Comes, IsWalk};

use std::alloc::{AllocError, Global};

/// What a place is: an end, good or not, or one from which a step leads on.
#[derive(Clone, Copy)]
pub enum Step {
    Ends(bool),
    To(usize),
}

/// Of each place whether it comes to a good end. It takes time in proportion to how many there are.
pub fn reached(alloc: Global, steps: &[Step]) -> Result<Vec<bool>, AllocError>
    ensures { IfOk result (λ reached. AreReached steps.now reached.items) }
{
    let mut marks = vec![in alloc; None; steps.len()]?;
    let mut path = Vec::new(alloc);
    let mut reached = Vec::new(alloc);
    for place in 0..steps.len() {
        reached.push(comes(steps, &mut marks, &mut path, place)?)?;
    }
    Ok(reached)
}

/// Whether a place comes to a good end. All that its walk enters is marked.
fn comes(
    steps: &[Step],
    marks: &mut [Option<bool>],
    path: &mut Vec<usize>,
    from: usize,
) -> Result<bool, AllocError>
    requires { AreRight steps.now marks.old }
    ensures comes { IfOk result (λ comes. IsTrue comes ↔ Comes steps.now from) }
    ensures right { IfOk result (λ comes. AreRight steps.now marks.new) }
{
    path.clear();
    let comes = walk(steps, marks, path, from)?;
    settle(path, comes, marks);
    Ok(comes)
}

/// Walks on from a place until there is an end, or a mark: whether the path comes to a good end.
fn walk(
    steps: &[Step],
    marks: &mut [Option<bool>],
    path: &mut Vec<usize>,
    from: usize,
) -> Result<bool, AllocError>
    requires right { AreRight steps.now marks.old }
    requires no_path { path.old.items ≡ [] }
    ensures { IfOk result (λ comes. IsWalk steps.now marks.new path.new.items from comes) }
{
    let mut at = from;
    while at < steps.len() {
        if let Some(known) = marks[at] {
            return Ok(known);
        }
        marks[at] = Some(false);
        path.push(at)?;
        match steps[at] {
            Step::Ends(good) => return Ok(good),
            Step::To(next) => at = next,
        }
    }
    Ok(false)
}

/// Marks all on a path.
fn settle(path: &[usize], mark: bool, marks: &mut [Option<bool>])
    requires { All (λ place. place < length marks.old) path.now }
    ensures { AreSettled path.now mark marks.old marks.new }
{
    for place in path {
        marks[*place] = Some(mark);
    }
}
