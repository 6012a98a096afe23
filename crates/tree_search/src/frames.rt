//! Open choices: a token that branches, and its children one after another.

use crate::boxes::OpenBox;
use decomposition::Token;

/// An open choice: its token, which child is looked at, the middle of a split, the state of the box before it, the place of the
/// token, and where the tokens of the present child begin.
#[derive(Clone, Copy)]
pub struct Frame {
    pub token: Token,
    pub child: usize,
    pub middle: u64,
    pub mark: usize,
    pub place: usize,
    pub begin: usize,
}

/// Makes the first child of a split or a step; none for a token that closes.
pub fn branch(open: &mut OpenBox, token: Token, place: usize) -> Option<Frame> {
    let mark = open.mark();
    let middle = match token {
        Token::Split(slot) => open.middle(slot),
        _ => 0,
    };
    let frame = Frame {
        token,
        child: 0,
        middle,
        mark,
        place,
        begin: place.saturating_add(1),
    };
    if make_child(open, &frame) {
        Some(frame)
    } else {
        None
    }
}

/// Makes the next child, where the box is the parent's again; none where there is none.
pub fn next_child(open: &mut OpenBox, frame: Frame) -> Option<Frame> {
    let child = frame.child.saturating_add(1);
    let frame = Frame { child, ..frame };
    if make_child(open, &frame) {
        Some(frame)
    } else {
        None
    }
}

/// Makes the child of a frame; false where there is none.
fn make_child(open: &mut OpenBox, frame: &Frame) -> bool {
    match frame.token {
        Token::Split(slot) => make_half(open, slot, frame.child, frame.middle),
        Token::Step(slot) => {
            let Some(&edge) = open.next_edges(slot).get(frame.child) else {
                return false;
            };
            open.step(slot, edge);
            true
        }
        Token::Gap | Token::Miss(_) => false,
    }
}

/// Makes one half of a split.
fn make_half(open: &mut OpenBox, slot: u32, child: usize, middle: u64) -> bool {
    match child {
        0 => open.cut(slot, middle),
        1 => open.raise(slot, middle.saturating_add(1)),
        _ => return false,
    }
    true
}
