//! The choice of a token for a box that nothing closes.
//!
//! First splits of which one half closes at once, then wide ranges, steps of which at most one child does not close at once, steps of
//! slots that no other stands before, and last the widest range.

use crate::boxes::OpenBox;
use decomposition::Token;
use search_rooms::NONE;

/// How a token is chosen.
#[derive(Clone, Copy)]
pub enum Profile {
    /// Steps as soon as they can be, splits where one half closes.
    Steps,
    /// The same, but ranges above a quarter of the greatest weight are split before any step.
    Quarters,
    /// The same with an eighth.
    Eighths,
    /// The first slot steps that can, wherever it stands.
    InTurn,
}

/// The range above which a slot is split before any step.
fn widest_allowed(open: &OpenBox, profile: Profile) -> Option<u64> {
    match profile {
        Profile::Steps | Profile::InTurn => None,
        Profile::Quarters => Some((open.cap() / 4).max(1)),
        Profile::Eighths => Some((open.cap() / 8).max(1)),
    }
}

/// The token for a box that nothing closes, or none where no token can be taken.
pub fn choose(open: &mut OpenBox, profile: Profile) -> Option<Token> {
    if let Some(slot) = forced_split(open) {
        return Some(Token::Split(slot));
    }
    if let Some(wide) = widest_allowed(open, profile) {
        if let Some(slot) = widest_range(open, wide) {
            return Some(Token::Split(slot));
        }
    }
    if let Some(slot) = chosen_step(open, profile) {
        return Some(Token::Step(slot));
    }
    match widest_range(open, 0) {
        Some(slot) => Some(Token::Split(slot)),
        None => None,
    }
}

/// The slot that steps.
fn chosen_step(open: &mut OpenBox, profile: Profile) -> Option<u32> {
    match profile {
        Profile::InTurn => first_step(open),
        Profile::Steps | Profile::Quarters | Profile::Eighths => {
            if let Some(slot) = forced_step(open) {
                return Some(slot);
            }
            ready_step(open)
        }
    }
}

/// The first slot of the widest range above a width.
fn widest_range(open: &OpenBox, above: u64) -> Option<u32> {
    let mut best = None;
    let mut width = above;
    for slot in 0..open.slots() {
        if open.can_split(slot) && open.range(slot) > width {
            width = open.range(slot);
            best = Some(slot);
        }
    }
    best
}

/// The first slot that can step.
fn first_step(open: &OpenBox) -> Option<u32> {
    for slot in 0..open.slots() {
        if open.can_step(slot) {
            return Some(slot);
        }
    }
    None
}

/// The first slot that can step and is ready.
fn ready_step(open: &OpenBox) -> Option<u32> {
    for slot in 0..open.slots() {
        if open.can_step(slot) && is_ready(open, slot) {
            return Some(slot);
        }
    }
    None
}

/// Whether no other slot that can step stands before the end of this one's walk.
fn is_ready(open: &OpenBox, slot: u32) -> bool {
    let end = open.end(slot);
    if end == NONE {
        return true;
    }
    for j in 0..open.slots() {
        let other = open.end(j);
        if open.can_step(j) && other != end && (other == NONE || open.reaches(other, end)) {
            return false;
        }
    }
    true
}

/// The first slot whose step is forced.
fn forced_step(open: &mut OpenBox) -> Option<u32> {
    for slot in 0..open.slots() {
        if open.can_step(slot) && is_forced_step(open, slot) {
            return Some(slot);
        }
    }
    None
}

/// Whether at most one child of a step does not close at once.
fn is_forced_step(open: &mut OpenBox, slot: u32) -> bool {
    let mark = open.mark();
    let mut some = false;
    for &e in open.next_edges(slot) {
        open.step(slot, e);
        let closes = open.closing().is_some();
        open.back_to(mark);
        if some && !closes {
            return false;
        }
        some = some || !closes;
    }
    true
}

/// The split of which one half closes at once: the strongest one of the first slots of one range that have any.
fn forced_split(open: &mut OpenBox) -> Option<u32> {
    let mut first = 0u32;
    for _ in 0..open.slots() {
        if first >= open.slots() {
            break;
        }
        let last = last_alike(open, first);
        if open.can_split(first) {
            if let Some(slot) = strongest(open, first, last) {
                return Some(slot);
            }
        }
        first = last.saturating_add(1);
    }
    None
}

/// The last of the slots from this one on that have its range.
fn last_alike(open: &OpenBox, first: u32) -> u32 {
    let mut last = first;
    for slot in first.saturating_add(1)..open.slots() {
        if open.least(slot) != open.least(first) || open.most(slot) != open.most(first) {
            break;
        }
        last = slot;
    }
    last
}

/// Of slots of one range: the last one whose lower half closes, or the first one whose upper half does, whichever moves more slots.
fn strongest(open: &mut OpenBox, first: u32, last: u32) -> Option<u32> {
    let lower = last_lower(open, first, last);
    let upper = first_upper(open, first, last);
    match (lower, upper) {
        (Some(i), Some(j)) if last.saturating_sub(j) > i.saturating_sub(first) => Some(j),
        (Some(i), _) => Some(i),
        (None, upper) => upper,
    }
}

/// The last slot whose lower half closes. Where one does, so do those before it.
fn last_lower(open: &mut OpenBox, first: u32, last: u32) -> Option<u32> {
    if !lower_closes(open, first) {
        return None;
    }
    let mut low = first;
    let mut high = last;
    for _ in first..last {
        if low >= high {
            break;
        }
        let i = low.midpoint(high.saturating_add(1));
        if lower_closes(open, i) {
            low = i;
        } else {
            high = i.saturating_sub(1);
        }
    }
    Some(low)
}

/// The first slot whose upper half closes. Where one does, so do those behind it.
fn first_upper(open: &mut OpenBox, first: u32, last: u32) -> Option<u32> {
    if !upper_closes(open, last) {
        return None;
    }
    let mut low = first;
    let mut high = last;
    for _ in first..last {
        if low >= high {
            break;
        }
        let i = low.midpoint(high);
        if upper_closes(open, i) {
            high = i;
        } else {
            low = i.saturating_add(1);
        }
    }
    Some(low)
}

/// Whether the lower half of a split closes at once by its weights.
fn lower_closes(open: &mut OpenBox, slot: u32) -> bool {
    let mark = open.mark();
    let middle = open.middle(slot);
    open.cut(slot, middle);
    let closes = open.closed_by_weights().is_some();
    open.back_to(mark);
    closes
}

/// Whether the upper half of a split closes at once by its weights.
fn upper_closes(open: &mut OpenBox, slot: u32) -> bool {
    let mark = open.mark();
    let weight = open.middle(slot).saturating_add(1);
    open.raise(slot, weight);
    let closes = open.closed_by_weights().is_some();
    open.back_to(mark);
    closes
}
