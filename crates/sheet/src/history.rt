use crate::sheet::{LockedSheet, OpenSheet};
use crate::summary::Summary;
use rules::{Denial, Row};

pub mod replay;

// A question that owns what it lends.
#[derive(Drop)]
pub enum Question<S> {
    Spans(usize, Vec<S>, Vec<u8>, Vec<Option<(usize, usize)>>),
    Govern(Vec<S>),
    Sets(usize, Vec<u32>),
}

// A call on a sheet that owns what it lends.
#[derive(Drop)]
pub enum Call<S> {
    Add(Vec<Row>),
    Drop(usize),
    Lock,
    Unlock,
    Ask(Question<S>),
}

// The result of a question.
#[derive(Clone, Copy)]
pub enum Answer {
    Spans(Result<(), Denial>),
    Govern(Result<usize, Denial>),
    Sets(Result<Summary, Denial>),
}

// A sheet, open or locked.
#[derive(Drop)]
pub enum Sheet<A, P> {
    Open(OpenSheet<A, P>),
    Locked(LockedSheet<A, P>),
}

// What a replay gives back: the locked sheet, and its answer to the question.
#[derive(Drop)]
pub struct Replayed<A, P> {
    pub sheet: LockedSheet<A, P>,
    pub answer: Answer,
}

// The calls of a replay are not allowed, or leave the sheet open. The sheet is as it was.
#[derive(Drop)]
pub struct NotAllowed<A, P> {
    pub sheet: OpenSheet<A, P>,
}
