// What is noted of the needed elements while they are read, and how often each role was counted among the children of a group.
ghost use Rattle.std.specs.Prelude.{◌≡◌, Bool, suc, min, get_or, set};
ghost use Rattle.paths.specs.Table.{lacks};
ghost use Rattle.elements.specs.Forest.{none, count_of};
ghost use Rattle.elements.specs.Notes.{one_more, counted, warned, placed, noting, bumped};

use crate::{LACK, MESSAGES, TOO_MANY};

fn note_at(notes: &[usize], k: usize) -> usize
    ensures { result ≡ get_or notes.now k 0 }
{
    notes.get(k).copied().unwrap_or(0)
}

// By place, here and in `count`: by `get_mut` the proof did not close.
fn put_note(notes: &mut [usize], k: usize, v: usize)
    ensures { notes.new ≡ set notes.old k v }
{
    if k < notes.len() {
        notes[k] = v;
    }
}

fn one_more(n: usize) -> usize
    ensures { result ≡ one_more n }
{
    if n < TOO_MANY { n + 1 } else { n }
}

// Counts a message. Whether it is one stays a flag, as `counted` takes it.
fn count_message(notes: &mut [usize], message: bool)
    ensures { notes.new ≡ counted message notes.old }
{
    if message {
        let n = one_more(note_at(notes, MESSAGES));
        put_note(notes, MESSAGES, n);
    }
}

// Notes the first that lacks something, likewise (`warned`).
fn warn(notes: &mut [usize], lack: bool, place: usize)
    ensures { notes.new ≡ warned lack place notes.old }
{
    if lack {
        let first = wire::least(note_at(notes, LACK), place);
        put_note(notes, LACK, first);
    }
}

fn put_place(notes: &mut [usize], role: usize, place: usize)
    ensures { notes.new ≡ placed role place notes.old }
{
    if role < paths::ROLES {
        put_note(notes, role, place);
    }
}

// Notes an element of a role, of which is known whether it lacks something. Role and place stay parameters, as `noting` takes them.
pub(crate) fn note(notes: &mut [usize], role: usize, place: usize, lack: bool)
    ensures { notes.new ≡ noting role place lack notes.old }
{
    if role == paths::OTHER {
        return;
    }
    put_place(notes, role, place);
    count_message(notes, paths::is_message(role));
    warn(notes, lack, place);
}

// ---- counts of children by role

// One, and then two however many follow.
fn bump(n: u8) -> u8
    ensures { result ≡ min (suc n) 2 }
{
    if n == 0 { 1 } else { 2 }
}

pub(crate) fn count(counts: &mut [u8], role: usize)
    ensures { counts.new ≡ bumped role counts.old }
{
    if role == paths::OTHER {
        return;
    }
    let k = paths::counts_as(role);
    if k < counts.len() {
        counts[k] = bump(counts[k]);
    }
}

// Notes a group, of whose children is known how often each role was counted.
pub(crate) fn note_group(notes: &mut [usize], role: usize, place: usize, counts: &[u8])
    ensures { notes.new ≡ noting role place (lacks role (λ k. get_or counts.now k 0)) notes.old }
{
    note(notes, role, place, paths::lacking(role, counts));
}

// Notes a group that holds nothing.
pub(crate) fn note_bare(notes: &mut [usize], role: usize, place: usize)
    ensures { notes.new ≡ noting role place (lacks role (count_of none)) notes.old }
{
    let counts = [0u8; paths::ROLES];
    note_group(notes, role, place, &counts);
}
