// The types of the machine. specs/ has the step list, the one-after-another memory, the history, the ranges of its
// numbers, demand 3 and the stock rule as definitions over these types, and proofs/ the proof of demand 3 and of the
// stock rule. No code.
#![tactic(auto)]

// The stage of a read or a write that a job is inside of. A read has Check, List and Take; a write has Check, List,
// Copy and Write.
#[derive(Clone, Copy, PartialEq, Eq)]
pub enum Stage {
    Check,
    List,
    Copy,
    Take,
    Write,
}

// Where a job stands in the step list: not active, before an item, or inside a move.
#[derive(Clone, Copy, PartialEq, Eq)]
pub enum Place {
    Idle,
    A1,
    A2,
    A4,
    A7,
    A10,
    A12,
    A14,
    A15,
    H16,
    H17,
    H21,
    Move(Stage),
    H22,
    H25,
    H32,
    H34,
    H36,
    H37,
    H38,
    H41,
    H42,
}

// A value of V: a count and a flag (cnt and needhelp of the source).
#[derive(Clone, Copy, PartialEq, Eq)]
pub struct Version {
    pub count: u32,
    pub flag: bool,
}

// A job's working record: its private variables, named as in the source, and where it is in the update it runs.
#[derive(Clone, Copy)]
pub struct Working {
    pub place: Place,
    // the update that its latest call names
    pub update: u8,
    // 0 or 1
    pub round: u8,
    // the job announced on its own card, the job it helps, and the job whose row it stores (a status)
    pub lid: u8,
    pub hid: u8,
    pub wid: i32,
    // the value of V that A7 took, and the flag that A10 chose
    pub ver: Version,
    pub next: bool,
    // the update that H21 took, the move it is at, the read or write of that move, and the word last taken
    pub tr: u8,
    pub index: u8,
    pub access: u8,
    pub word: u32,
    // how many blocks are listed (from H34 on: in wid's row), and how many copy blocks are used
    pub numblks: u8,
    pub dirtycnt: u8,
    // the marks: for each block 0 where it is not listed, 1 where it is listed, 2 where it is written too
    pub dirty: [u8; 16],
    // for each listed block its number in this run: its copy's once there is one
    pub curr: [u8; 16],
    // the copy list
    pub copy: [u8; 8],
    // which listed block of wid's row comes next, and what H38 read there
    pub j: u8,
    pub addr: u8,
    pub old: u8,
    pub new: u8,
}

// The shared cells except the store and the rows. Statuses have a cell more, Stat[N]; numblks are the rows' counts.
#[derive(Clone, Copy)]
pub struct Cells {
    pub v: Version,
    pub ann: [u8; 8],
    pub stat: [i32; 17],
    pub trans: [u8; 16],
    pub bank: [u8; 16],
    pub numblks: [u8; 16],
}

// What one item stores in a shared cell, at most one a step.
#[derive(Clone, Copy)]
pub enum Store {
    Nothing,
    // V becomes (count, flag)
    Version(u32, bool),
    // Ann[card] becomes a job or N
    Ann(u8, u8),
    // Stat[job] becomes a status
    Stat(u8, i32),
    // Trans[job] becomes an update
    Trans(u8, u8),
    // at this place of the running job's row: the address and the old number
    Listed(u8, u8, u8),
    // the block of the first number is copied into that of the second
    Block(u8, u8),
    // the word at this place of the block of this number becomes this word
    Word(u8, u8, u32),
    // the new numbers of all blocks that the running job has listed, and their count, go into its row
    Published,
    // Bank[block] becomes a block number
    Bank(u8, u8),
}

// What one item gives: the running job's next working record, the store, and whether the condition of H25, H41 or H42
// held (false for every other item).
#[derive(Clone, Copy)]
pub struct Out {
    pub work: Working,
    pub store: Store,
    pub done: bool,
}

// The refusals that an entry can meet: 11 to 14 of the table, in its order.
#[derive(Clone, Copy, PartialEq, Eq)]
pub enum Refusal {
    NoSuch,
    Active,
    NoCard,
    NoneActive,
}

// What an entry comes to in a state: it calls a job with an update, a job does its next item, or it is refused. These
// are three ways to go on, and not a value or an error.
#[derive(Clone, Copy)]
pub enum Judgement {
    Calls(usize, usize),
    Runs(usize),
    Refused(Refusal),
}
