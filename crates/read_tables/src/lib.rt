// A plan and the notes on entry lines, as the reading of a text fills them. Both have room for the largest text in
// fixed memory.
#![tactic(auto)]

ghost use Rattle.std.specs.Prelude.{◌≡◌, ◌≤◌, ◌<◌, ◌+◌, ◌-◌, [], ◌∷◌, ◌++◌, length, get_or};
ghost use Rattle.spec_format.specs.Plan.{target};
ghost use Rattle.spec_format.specs.Reading.{blank, add_to_last};
ghost use Rattle.read_tables.specs.Plans.{with_sizes, with_jobs, with_words, with_updates};

use arrayvec::ArrayVec;
use spec_format::{Entry, Job, Move, Sizes};
use std::marker::Model;

// What is noted of an entry line: its entry, how many times it comes, and the line. A run of steps is one note,
// whatever its n.
#[derive(Clone, Copy, Default)]
pub struct Note {
    pub entry: Entry,
    pub times: u32,
    pub line: u32,
}

// The notes on a text's entry lines, in order: 4,000 at most.
pub type Notes = ArrayVec<Note, 4000>;

// A plan: its sizes, and what has been read of its jobs, its opening words, block after block, and its updates. A
// contract sees the definitions' plan.
#[derive(Drop)]
pub struct Plan {
    sizes: Sizes,
    jobs: ArrayVec<Job, 16>,
    words: ArrayVec<u32, 256>,
    updates: ArrayVec<ArrayVec<Move, 16>, 32>,
}

impl Model for Plan {
    ghost use Rattle.std.specs.Prelude.{map};
    ghost use Rattle.spec_format.specs.Plan.{Plan as PlanValue};

    ghost Value = { PlanValue };

    ghost view = { λ p. record {
      sizes = p.sizes;
      jobs = p.jobs.items;
      words = p.words.items;
      updates = map (λ update. update.items) p.updates.items;
    } };
}

impl Plan {
    // A plan of which nothing has been read.
    pub fn new() -> Plan
        ensures { result ≡ blank.plan }
    {
        Plan {
            sizes: Sizes::default(),
            jobs: ArrayVec::new(),
            words: ArrayVec::new(),
            updates: ArrayVec::new(),
        }
    }

    // P, N, B, S and C.
    #[inline]
    pub fn sizes(&self) -> Sizes
        ensures { result ≡ self.now.sizes }
    {
        self.sizes
    }

    // The jobs.
    #[inline]
    pub fn jobs(&self) -> &[Job]
        ensures value { result.now ≡ self.now.jobs }
        ensures most { length result.now ≤ 16 }
    {
        self.jobs.as_slice()
    }

    // The opening words.
    #[inline]
    pub fn words(&self) -> &[u32]
        ensures value { result.now ≡ self.now.words }
        ensures most { length result.now ≤ 256 }
    {
        self.words.as_slice()
    }

    // How many updates there are.
    #[inline]
    pub fn updates(&self) -> usize
        ensures value { result ≡ length self.now.updates }
        ensures most { result ≤ 32 }
    {
        self.updates.len()
    }

    // The moves of update u.
    #[inline]
    pub fn moves(&self, u: usize) -> &[Move]
        requires { u < length self.now.updates }
        ensures value { result.now ≡ get_or self.now.updates u [] }
        ensures most { length result.now ≤ 16 }
    {
        self.updates[u].as_slice()
    }

    // Puts P, N, B, S and C.
    pub fn set_sizes(&mut self, sizes: Sizes)
        ensures { self.new ≡ with_sizes sizes self.old }
    {
        self.sizes = sizes;
    }

    // Adds a job.
    pub fn push_job(&mut self, job: Job)
        requires { length self.old.jobs < 16 }
        ensures { self.new ≡ with_jobs (self.old.jobs ++ job ∷ []) self.old }
    {
        self.jobs.push(job);
    }

    // Adds the opening words of a block.
    pub fn push_words(&mut self, words: &[u32])
        requires { length self.old.words + length words.now ≤ 256 }
        ensures { self.new ≡ with_words (self.old.words ++ words.now) self.old }
    {
        self.words.try_extend_from_slice(words).unwrap();
    }

    // Adds an update without moves.
    pub fn push_update(&mut self)
        requires { length self.old.updates < 32 }
        ensures { self.new ≡ with_updates (self.old.updates ++ [] ∷ []) self.old }
    {
        self.updates.push(ArrayVec::new());
    }

    // Adds a move to the last update.
    pub fn push_move(&mut self, x: Move)
        requires some { 0 < length self.old.updates }
        requires room { length (get_or self.old.updates (length self.old.updates - 1) []) < 16 }
        ensures { self.new ≡ with_updates (add_to_last x self.old.updates) self.old }
    {
        let last = self.updates.len() - 1;
        self.updates[last].push(x);
    }
}

// The word that a move writes.
pub fn target_of(x: Move) -> u32
    ensures { result ≡ target x }
{
    match x {
        Move::Copy(d, _) | Move::Set(d, _) | Move::Add(d, _, _) => d,
    }
}
