// Making a filter, and asking for its steps.
ghost use Rattle.std.specs.Prelude.{◌≡◌, ◌≤◌, [], ◌∷◌, length, if◌then◌else◌, Some, None};
ghost use Rattle.std.specs.Option.{option_map};
ghost use Rattle.vocabulary.specs.Limits.{most_steps};
ghost use Rattle.filter.specs.Filters.{any_child, is_filter, step_at};
ghost use Rattle.filter.specs.Walks.{steps_of};

use super::super::steps::Step;
use super::Filter;
use rows::Row;

impl Filter {
    // A fresh filter holds `/*`.
    pub fn new() -> Filter
        ensures answer { steps_of result ≡ any_child ∷ [] }
    {
        let mut steps = Row::new();
        steps.push(Step::default()).unwrap();
        Filter { steps }
    }

    // The filter of these steps, if they are one to eight and each code is 1 to 512.
    pub fn from_steps(given: &[Step]) -> Option<Filter>
        ensures answer { option_map steps_of result ≡ (if is_filter given.now then Some given.now else None) }
    {
        let steps = Row::from_slice(given).ok()?;
        if given.is_empty() || !given.iter().all(|step| step.test.is_known()) {
            return None;
        }
        Some(Filter { steps })
    }

    pub fn len(&self) -> usize
        ensures answer { result ≡ length (steps_of self.now) }
    {
        self.steps.len()
    }

    pub fn steps(&self) -> &[Step]
        ensures answer { result.now ≡ steps_of self.now }
        ensures few { length result.now ≤ most_steps }
    {
        self.steps.as_slice()
    }

    // Step k, counted from 1.
    pub fn step(&self, k: usize) -> Option<Step>
        ensures answer { result ≡ step_at (steps_of self.now) k }
    {
        self.steps().get(k.checked_sub(1)?).copied()
    }
}
