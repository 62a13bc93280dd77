//! What a turn takes and answers.
use context_book::{PageEnd, View};
use list_machine::{Reply, SearchRequest};
use reader_gate::Pass;

/// What a caller brings to a turn: nothing, so far.
#[derive(Clone, Copy)]
pub enum Brought {
    Nothing,
}

/// What is left to do after a turn. It has all that this takes, so that no later turn changes what it is answered.
#[derive(Drop)]
pub enum Plan {
    /// A page of the view that the pass holds, after so many pages, whose end is known so far, of the scroll of that number. A search has
    /// none before it, and the number 0, which no context gets.
    Page {
        pass: Pass<View>,
        request: SearchRequest,
        pages: u64,
        end: PageEnd,
        number: u64,
    },
}

/// What a turn answers: the reply, or a plan whose running gives it.
#[derive(Drop)]
pub enum Turned {
    Now(Reply),
    Later(Plan),
}

/// What a quiet does besides.
#[derive(Drop)]
pub enum Chore {
    /// Lets the contexts go that are no longer live.
    Reap,
    /// Notes how far the pages of the scroll of that number are known. There are no scrolls yet, so it notes nothing.
    NoteEnd { number: u64, end: PageEnd },
}

/// What a quiet gathers: nothing, so far.
#[derive(Clone, Copy)]
pub enum Gathered {
    Nothing,
}

/// How many readers of views were made, shut and ended, how many segments there are, and how many contexts are left.
/// None is counted yet, so all are 0.
#[derive(Clone, Copy)]
pub struct Totals {
    pub opened: u64,
    pub closed: u64,
    pub ended: u64,
    pub segments: u64,
    pub left: u64,
}
