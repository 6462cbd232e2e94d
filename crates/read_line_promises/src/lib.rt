// What has been read of a text: the plan so far, the notes on entry lines, and counts. specs/ says what always holds
// of them and what reading one line promises.
#![tactic(auto)]

ghost use Rattle.read_line_promises.specs.Consistent.{Consistent};

use read_tables::{Notes, Plan};

// How much of a text has been read, besides what the plan and the notes say themselves: how many lines, blocks and
// single entries, and how many different blocks the last update writes.
#[derive(Clone, Copy)]
pub struct Progress {
    pub lines: usize,
    pub blocks: usize,
    pub written: usize,
    pub entries: usize,
}

// What has been read of a text: the plan and the notes, and how much that is.
#[derive(Drop)]
pub struct PartRead {
    pub plan: Plan,
    pub notes: Notes,
    pub progress: Progress,
    pub ghost consistent: { Consistent plan notes.items progress },
}

impl PartRead {
    ghost use Rattle.read_line_promises.specs.Promises.{Unread};

    // Nothing has been read.
    #[tactic(auto, unfolding(spec_format::specs::Plan::blocks_written))]
    pub fn blank() -> PartRead
        ensures { Unread result }
    {
        PartRead {
            plan: Plan::new(),
            notes: Notes::new(),
            progress: Progress {
                lines: 0,
                blocks: 0,
                written: 0,
                entries: 0,
            },
        }
    }
}
