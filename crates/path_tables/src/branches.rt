//! Plans in filters that go by the numbers of nodes too, if filters are asked of all nodes. This decides the way that an
//! evaluation goes, and not what it gives.
use path_plans::plan::{Plan, PlanComparable, PlanSelector};

/// Whether there is a filter among the choices.
fn has_kept(choices: &Vec<PlanSelector<'_>>) -> bool {
    for choice in choices {
        if let PlanSelector::Kept(_) = choice {
            return true;
        }
    }
    false
}

/// Whether the plan has a filter, or more than one segment that may lead to a node more than once.
pub fn goes_by_numbers(plan: &Plan<'_>) -> bool {
    let mut branches: usize = 0;
    for segment in &plan.segments {
        if has_kept(&segment.choices) {
            return true;
        }
        if segment.descend || segment.choices.len() > 1 {
            branches = branches.saturating_add(1);
        }
    }
    branches > 1
}

/// Whether the plan in the side of a comparison does so.
pub fn side_goes_by_numbers(side: &PlanComparable<'_>) -> bool {
    match side {
        PlanComparable::OnlyOf(plan) => goes_by_numbers(plan),
        PlanComparable::NumberOf(plan) => goes_by_numbers(plan),
        PlanComparable::SizeOf(inner) => side_goes_by_numbers(inner),
        _ => false,
    }
}
