// The tables of the machine: the shared cells, the rows, the store and the book, with what each job keeps of its own
// besides its registers; and the types of the step list's code.
#![tactic(auto)]

ghost use Rattle.std.specs.Prelude.{◌≡◌};
ghost use Rattle.step_cells.specs.Tables.{blank_tables};

use arrayvec::ArrayVec;
use spec_machine::{Place, Refusal, Version};

// What a job keeps of its own besides its registers: its marks (for each block 0 where it is not listed, 1 where it is
// listed, 2 where it is written too, as the definitions have them), its numbers of this run, its copy list, and the
// update that it was called with.
#[derive(Clone, Copy)]
pub struct Own {
    pub dirty: [u32; 16],
    pub curr: [u32; 16],
    pub copy: [u32; 8],
    pub update: u32,
}

// "Each job has its own row of addresses, old and new block numbers."
#[derive(Clone, Copy)]
pub struct Rows {
    pub addr: [[u32; 16]; 16],
    pub old: [[u32; 16]; 16],
    pub new: [[u32; 16]; 16],
}

// A commit: its entry, from 1, and the job and the update of the committed call.
#[derive(Clone, Copy, Default)]
pub struct Commit {
    pub entry: u32,
    pub job: u32,
    pub update: u32,
}

// What is kept beside the machine, so that an entry is judged, counted and reported without looking through the jobs:
// how many entries were accepted, the refusal that has stopped the run, the place of the first record of another kind,
// from 1, the job that runs on each card, which jobs are active, and the commits.
#[derive(Drop)]
pub struct Book {
    pub entries: u32,
    pub halt: Option<Refusal>,
    pub other: Option<usize>,
    pub running: [Option<usize>; 8],
    pub active: [bool; 16],
    pub commits: ArrayVec<Commit, 4000>,
}

// The tables: the shared cells as the source names them (statuses have one more, Stat[N]), what each job keeps of its
// own, the rows, the store and the book.
#[derive(Drop)]
pub struct Tables {
    pub v: Version,
    pub ann: [u32; 8],
    pub stat: [i32; 17],
    pub trans: [u32; 16],
    pub bank: [u32; 16],
    pub numblks: [u32; 16],
    pub own: [Own; 16],
    pub rows: Rows,
    pub store: [u32; 2304],
    pub book: Book,
}

impl Tables {
    // Tables in which nothing stands yet.
    pub fn blank() -> Tables
        ensures { result ≡ blank_tables }
    {
        let own = Own {
            dirty: [0; 16],
            curr: [0; 16],
            copy: [0; 8],
            update: 0,
        };
        Tables {
            v: Version {
                count: 0,
                flag: false,
            },
            ann: [0; 8],
            stat: [0; 17],
            trans: [0; 16],
            bank: [0; 16],
            numblks: [0; 16],
            own: [own; 16],
            rows: Rows {
                addr: [[0; 16]; 16],
                old: [[0; 16]; 16],
                new: [[0; 16]; 16],
            },
            store: [0; 2304],
            book: Book {
                entries: 0,
                halt: None,
                other: None,
                running: [None; 8],
                active: [false; 16],
                commits: ArrayVec::new(),
            },
        }
    }
}

// The scalars of a job's working record (spec_machine::Working): its registers. The rest of it is Own. The loop copies
// registers whole: in this order they take 32 bytes, and of the orders that do it is among the fastest. That they fit
// is no ghost field but a clause (Fits.RegistersFit): definitions build registers too, and each would owe a proof. The
// same holds of the tables (Whole, CellsFit).
#[derive(Clone, Copy)]
pub struct Registers {
    pub word: u32,
    pub ver: Version,
    pub place: Place,
    pub round: u8,
    pub lid: u8,
    pub hid: u8,
    pub next: bool,
    pub addr: u8,
    pub old: u8,
    pub new: u8,
    pub numblks: u8,
    pub dirtycnt: u8,
    pub j: u8,
    pub tr: u8,
    pub index: u8,
    pub access: u8,
    pub wid: i32,
}

// What an item changes in the tables: the store of the step list, and what it changes of the job's own places.
#[derive(Clone, Copy)]
pub enum Change {
    Nothing,
    // V becomes (count, flag)
    Version(u32, bool),
    // Ann[card] becomes the job: its announcement
    Announced(u32),
    // Ann[card] becomes N: the job's return
    Returned(u32),
    // Stat[p] becomes −1
    Pending,
    // Trans[p] becomes the update that the job was called with
    Trans,
    // at this place of the job's row: the address and the old number; the block is listed under that number
    Listed(u32, u32, u32),
    // this block is written: the block of one number is copied into that of the next
    Block(u32, u32, u32),
    // the word at this place of the block of this number becomes this word
    Word(u32, u32, u32),
    // the new numbers of all listed blocks, and their count, go into the job's row
    Published(u32),
    // Bank[block] becomes a block number
    Bank(u32, u32),
    // the marks are cleared
    Cleared,
    // Stat[job] becomes the running job; of so many listed blocks the replaced numbers go into its copy list, and its
    // marks are cleared
    Decided(u32, u32),
    // Stat[job] becomes N: the commit
    Commit(u32),
}

// What an item gives: the job's next registers, the change, and whether the condition of H25, H41 or H42 held.
#[derive(Clone, Copy)]
pub struct Effect {
    pub registers: Registers,
    pub change: Change,
    pub done: bool,
}
