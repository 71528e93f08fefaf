// Row 6: the lowest definition that reaches itself, and the heights of definitions where there is none.
// For the floors above: find_heights. It reads the links in the shadow, and fills the cell HEIGHT of each model.
#![tactic(auto)]

ghost use Rattle.std.specs.Prelude.{◌≡◌, false, [], ◌∷◌, ℕ, ◌+◌, ◌/◌, ◌<◌, length, get_or, MatchResult};
ghost use Rattle.names.specs.Lists.{In};
ghost use Rattle.recipe.specs.Records.{recipe};
ghost use Rattle.recipe.specs.Definitions.{definitions};
ghost use Rattle.recipe.specs.Reaching.{reaches};
ghost use Rattle.recipe.specs.Reading.{fault₆};
ghost use Rattle.shadow.specs.Shadow.{Kept};
ghost use Rattle.shadow.specs.Columns.{Linked, Paired, Heights, Measured};
ghost use Rattle.heights.specs.Marks.{Marks};
ghost use Rattle.heights.specs.Heights.{Grows, IsCyclic, IsProgress, SettleFromRequires, height_of};

use recipe::{Kind, Records, Source};
use shadow::{SubmodelsOf, cell, set_cell};

// No record is shorter: a definition's place divided by it is a number of its own, and less than MOST_DEFINITIONS.
const LEAST_RECORD: usize = 13;

const MOST_DEFINITIONS: usize = 1261;

// The cell HEIGHT of a definition in progress. Of one that is not seen it is 0.
const IN_PROGRESS: usize = 65535;

// How far the search for a definition's height is.
#[derive(Clone, Copy)]
enum Progress {
    Unseen,
    InProgress,
    Settled(usize),
}

impl Progress {
    // That of definition d, by its cell.
    fn of(t: &[u16], d: usize) -> Progress
        requires { d + 6 < length t.now }
        ensures { IsProgress (height_of t.now d) result }
    {
        match cell(t, d, shadow::HEIGHT) {
            0 => Progress::Unseen,
            IN_PROGRESS => Progress::InProgress,
            h => Progress::Settled(h),
        }
    }
}

// Some definition reaches itself.
#[derive(Clone, Copy)]
struct Cyclic;

// The definitions that a search has met: each is marked, and queued once; those before `head` in the queue are taken from it.
#[derive(Drop)]
struct Worklist {
    mark: [bool; MOST_DEFINITIONS],
    queue: [u16; MOST_DEFINITIONS],
    head: usize,
    tail: usize,
    ghost marks: { Marks mark queue tail },
}

impl Worklist {
    ghost use Rattle.heights.specs.Search.{IsEmpty, IsMarked, Grown, Takes, ModelBelow};

    // None yet.
    fn new() -> Worklist
        ensures { IsEmpty result }
    {
        Worklist {
            mark: [false; MOST_DEFINITIONS],
            queue: [0; MOST_DEFINITIONS],
            head: 0,
            tail: 0,
        }
    }

    // Whether e is met.
    fn is_marked(&self, e: usize) -> bool
        requires { e < 16384 }
        ensures { result ≡ get_or self.now.mark (e / 13) false }
    {
        self.mark[e / LEAST_RECORD]
    }

    // Marks and queues e, where it is not marked yet.
    fn push(&mut self, e: usize)
        requires { e < 16384 }
        ensures { Grown (λ x. x ≡ e) self.old self.new × IsMarked self.new e }
    {
        if self.is_marked(e) {
            return;
        }
        self.mark[e / LEAST_RECORD] = true;
        self.queue[self.tail] = e as u16;
        self.tail += 1;
    }

    // Marks and queues the models of the submodels of definition e.
    fn push_models(&mut self, s: &Source, t: &[u16], e: usize)
        requires { Linked (recipe s.now) t.now × In e (definitions (recipe s.now)) }
        ensures { Grown (ModelBelow (recipe s.now) e) self.old self.new × ((x : ℕ) → ModelBelow (recipe s.now) e x → IsMarked self.new x) }
    {
        for p in SubmodelsOf::definition(s, e) {
            self.push(cell(t, p, shadow::MODEL));
        }
    }

    // Takes the next from the queue.
    fn next(&mut self) -> Option<usize>
        ensures { Takes self.old result self.new }
    {
        if self.head >= self.tail {
            return None;
        }
        let e = shadow::number_at(&self.queue, self.head);
        self.head += 1;
        Some(e)
    }
}

// Whether definition d reaches itself: what it reaches is met, and its models are met in turn.
fn reaches_itself(s: &Source, t: &[u16], d: usize) -> bool
    requires { Linked (recipe s.now) t.now × In d (definitions (recipe s.now)) }
    ensures { result ≡ reaches (recipe s.now) d d }
{
    let mut list = Worklist::new();
    list.push_models(s, t, d);
    while let Some(e) = list.next() {
        list.push_models(s, t, e);
    }
    list.is_marked(d)
}

// The lowest definition that reaches itself.
fn first_cycle(s: &Source, t: &[u16]) -> Option<usize>
    requires { Linked (recipe s.now) t.now }
    ensures { result ≡ fault₆ (recipe s.now) }
{
    for p in Records::of(s) {
        if s.bytes[p] == Kind::Model as u8 && reaches_itself(s, t, p) {
            return Some(p);
        }
    }
    None
}

// The height of definition d, which is settled with all that it reaches.
fn settle_from(s: &Source, t: &mut [u16], d: usize) -> Result<usize, Cyclic>
    requires { SettleFromRequires (recipe s.now) t.old d }
    ensures { Kept (recipe s.now) (6 ∷ []) t.old t.new × MatchResult result (Grows (recipe s.now) t.old t.new d) (λ _. IsCyclic (recipe s.now)) }
{
    match Progress::of(t, d) {
        Progress::Settled(h) => return Ok(h),
        Progress::InProgress => return Err(Cyclic),
        Progress::Unseen => {}
    }
    set_cell(t, d, shadow::HEIGHT, IN_PROGRESS);
    let mut below = 0;
    for p in SubmodelsOf::definition(s, d) {
        let e = cell(t, p, shadow::MODEL);
        below = below.max(settle_from(s, t, e)?);
    }
    let height = below + 1;
    set_cell(t, d, shadow::HEIGHT, height);
    Ok(height)
}

// Settles the heights of all definitions, that of each record in turn.
fn settle(s: &Source, t: &mut [u16]) -> Result<(), Cyclic>
    requires { Linked (recipe s.now) t.old }
    ensures { Kept (recipe s.now) (6 ∷ []) t.old t.new × MatchResult result (λ _. Heights (recipe s.now) t.new) (λ _. IsCyclic (recipe s.now)) }
{
    shadow::clear_cells(s, t, shadow::HEIGHT);
    for p in Records::of(s) {
        let d = cell(t, p, shadow::DEFINITION_OF);
        settle_from(s, t, d)?;
    }
    Ok(())
}

// The lowest definition that reaches itself; where there is none, the shadow has each definition's height.
pub fn find_heights(s: &Source, t: &mut [u16]) -> Option<usize>
    requires { Linked (recipe s.now) t.old × Paired (recipe s.now) t.old }
    ensures { (result ≡ fault₆ (recipe s.now)) × (result ≡ None → Measured (recipe s.now) t.new) × (length t.new ≡ length t.old) }
{
    match settle(s, t) {
        Ok(()) => None,
        Err(Cyclic) => first_cycle(s, t),
    }
}
