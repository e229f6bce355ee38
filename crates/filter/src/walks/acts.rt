// Opening and closing elements along a walk.
ghost use Rattle.std.specs.Prelude.{◌≡◌, ℕ, suc, ◌+◌, ◌-◌, ◌%◌, ◌^◌, ◌<◌, ◌≤◌, false, ◌&&◌, [], ◌∷◌, ◌++◌, length, take, if◌then◌else◌, Decides, nat_lt, slice_index};
ghost use Rattle.vocabulary.specs.Limits.{most_open, most_steps};
ghost use Rattle.filter.specs.Embedding.{Embeds, OneMoreStep, embeds, fits, pick};
ghost use Rattle.filter.specs.Masks.{newest, Columns};
ghost use Rattle.filter.specs.Walks.{steps_of, path_of};

use super::super::filters::Filter;
use super::super::steps::{Axis, Step};
use super::Walk;
use rows::Row;
use vocabulary::MOST_STEPS;

// Whether the bit of the depth `depth` is set, in a mask with no bit above it.
fn is_newest(mask: u32, depth: usize) -> bool
    requires { depth ≤ most_open }
    ensures { result ≡ newest mask depth }
{
    depth > 0 && mask >> (depth - 1) == 1
}

// Whether a step takes an element, whose parent the step before takes or not, and whose ancestors or not.
fn takes(step: Step, code: u16, behind: bool, above: bool) -> bool
    ensures { result ≡ (fits step.test code && pick step.axis behind above) }
{
    let linked = match step.axis {
        Axis::Child => behind,
        Axis::Descendant => above,
    };
    linked && step.test.accepts(code)
}

// The mask with the bit of the depth after `depth` as told.
#[tactic(auto, using(crate::proofs::Bits::or_fresh))]
fn marked(mask: u32, hit: bool, depth: usize) -> u32
    requires room { depth < most_open }
    requires clear { mask < 2 ^ depth }
    ensures { result ≡ mask + (if hit then 2 ^ depth else 0) }
{
    if hit { mask | (1u32 << depth) } else { mask }
}

// The masks with the element of this code below the path; and whether all the steps embed there.
fn advance(steps: &[Step], path: &[u16], code: u16, masks: &mut [u32]) -> bool
    requires some { 0 < length steps.now }
    requires few { length steps.now ≤ most_steps }
    requires room { length path.now < most_open }
    requires masks { length masks.old ≡ most_steps }
    requires before { Columns steps.now path.now masks.old (length path.now) }
    ensures answer { result ≡ embeds steps.now (path.now ++ code ∷ []) }
    ensures after { Columns steps.now (path.now ++ code ∷ []) masks.new (suc (length path.now)) }
{
    let depth = path.len();
    let mut behind = depth == 0;
    let mut above = true;
    let mut hit = false;
    // Not a zip with iter_mut, which tells a proof nothing of what is written.
    for (k, step) in steps.iter().enumerate() {
        let mask = masks[k];
        hit = takes(*step, code, behind, above);
        behind = is_newest(mask, depth);
        above = mask != 0;
        masks[k] = marked(mask, hit, depth);
    }
    hit
}

// The masks without the depths above `depth`.
fn retreat(masks: &mut [u32], depth: usize)
    requires { depth < most_open }
    ensures { (k : ℕ) → k < length masks.old → slice_index masks.new k ≡ slice_index masks.old k % 2 ^ depth }
{
    let kept = (1u32 << depth) - 1;
    for mask in masks.iter_mut() {
        *mask &= kept;
    }
}

impl Walk {
    pub fn new(filter: &Filter) -> Walk
        ensures path { path_of result ≡ [] }
        ensures filter { result.filter ≡ filter.now }
    {
        Walk {
            filter: *filter,
            masks: [0; MOST_STEPS],
            path: Row::new(),
        }
    }

    // Opens an element, and answers whether the filter embeds at it; with `MOST_OPEN` open nothing happens.
    #[tactic(auto, using(crate::proofs::Depths::one_more_step))]
    pub fn start(&mut self, code: u16) -> bool
        ensures answer { result ≡ (if nat_lt (length (path_of self.old)) most_open then embeds (steps_of self.old.filter) (path_of self.old ++ code ∷ []) else false) }
        ensures path { path_of self.new ≡ (if nat_lt (length (path_of self.old)) most_open then path_of self.old ++ code ∷ [] else path_of self.old) }
        ensures filter { self.new.filter ≡ self.old.filter }
        ensures rule { length (path_of self.old) < most_open → Decides result (Embeds (steps_of self.old.filter) (path_of self.old ++ code ∷ [])) }
        ensures theorem { OneMoreStep }
    {
        if self.path.is_full() {
            return false;
        }
        let hit = advance(
            self.filter.steps(),
            self.path.as_slice(),
            code,
            &mut self.masks,
        );
        self.path.push(code).unwrap();
        hit
    }

    // Closes the innermost open element; with none open nothing happens.
    pub fn end(&mut self)
        ensures path { path_of self.new ≡ take (length (path_of self.old) - 1) (path_of self.old) }
        ensures filter { self.new.filter ≡ self.old.filter }
    {
        self.path.pop();
        let depth = self.path.len();
        retreat(&mut self.masks, depth);
    }
}
