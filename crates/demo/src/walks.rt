// Walks over a small network, step by step.
ghost use Rattle.std.specs.Prelude.{◌≡◌, IfOk};
ghost use Rattle.demo.specs.Walks.{step_weight, step_weights};

use measure::Measure;
use model::ends::Ends;
use model::lookup::weight_between;
use model::records::Section;
use std::alloc::{AllocError, Global};

// What one step from u to v weighs: no way where no section joins them.
pub fn step<M: Measure>(sections: &[Section<M>], u: usize, v: usize) -> M
    ensures { result ≡ step_weight M.Measure.meaning sections.now u v }
{
    Ends::between(u, v)
        .and_then(|ends| weight_between(sections, ends))
        .unwrap_or(M::no_way())
}

// What each step of a walk weighs that goes from one station over those that follow.
pub fn steps<M: Measure>(
    heap: Global,
    sections: &[Section<M>],
    start: usize,
    rest: &[usize],
) -> Result<Vec<M>, AllocError>
    ensures { IfOk result (λ ws. ws.items ≡ step_weights M.Measure.meaning sections.now start rest.now) }
{
    let mut weights = Vec::new(heap);
    let mut at = start;
    for next in rest {
        weights.push(step(sections, at, *next))?;
        at = *next;
    }
    Ok(weights)
}
