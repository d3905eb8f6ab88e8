// The register's keys found and added, plainly or by an index in lent bytes. Either way tells the same; by the index it reads a few slots
// in place of all entries.
#![tactic(auto)]

ghost use Rattle.std.specs.Prelude.{◌≡◌};
ghost use Rattle.wire.specs.Field.{same};
ghost use Rattle.index.specs.Index.{entry_layout, index_length, index_of};
ghost use Rattle.index.specs.Ready.{Ready, SoughtTold, EnterReady, Entered, AnewReady, EnteredAnew, Measured};

use slots::{Ended, Layout};

const SLOTS_A_PLACE: usize = 2;

// What a search tells: whether the key is there, and of a search by the index how it ended. Whether an index is lent, `indexed`, stays a
// value and no type: `index_by`, `SoughtTold` and `slots_read` define what comes of either.
#[derive(Clone, Copy)]
pub struct Sought {
    pub there: bool,
    pub ended: Ended,
}

fn entry_layout() -> Layout
    ensures { result ≡ entry_layout }
{
    Layout {
        first: register::USED_WIDTH as u32,
        stride: register::ENTRY_WIDTH as u32,
        width: register::KEY_WIDTH as u32,
    }
}

// The bytes of a register's index.
pub fn length_for(register: &[u8]) -> usize
    ensures { result ≡ index_length register.now }
{
    slots::SLOT_WIDTH * (SLOTS_A_PLACE * register::room(register))
}

// Whether a key stands in the register.
pub fn seek(indexed: bool, register: &[u8], index: &[u8], key: &[u8]) -> Sought
    requires { Ready indexed register.now index.now 0 }
    ensures { SoughtTold indexed register.now key.now result }
{
    if indexed {
        let used = register::in_use(register);
        let ended = slots::search(entry_layout(), register, used, key, index);
        let there = slots::names(used, ended.name);
        return Sought { there, ended };
    }
    let there = register::stands(register, key);
    let ended = Ended {
        place: 0,
        name: 0,
        read: 0,
    };
    Sought { there, ended }
}

// Adds the entry of a key that was sought just before.
pub fn enter(indexed: bool, register: &mut [u8], index: &mut [u8], key: &[u8], sought: Sought)
    requires { EnterReady indexed register.old index.old key.now sought }
    ensures { Entered indexed register.old index.old key.now register.new index.new }
{
    if indexed {
        let ended = sought.ended;
        slots::add(index, ended, register::used(register));
    }
    register::add(register, key);
}

// Adds the entry of a key that was not sought just before: by the index it is sought again. The slots that this read.
pub fn enter_anew(indexed: bool, register: &mut [u8], index: &mut [u8], key: &[u8]) -> u32
    requires { AnewReady indexed register.old index.old key.now }
    ensures { EnteredAnew indexed register.old index.old key.now register.new index.new result }
{
    if indexed {
        let sought = seek(indexed, register, index, key);
        enter(indexed, register, index, key, sought);
        let ended = sought.ended;
        return ended.read;
    }
    register::add(register, key);
    0
}

// Whether an index is the one of the register.
pub fn is_built(register: &[u8], index: &[u8]) -> bool
    requires { Measured register.now index.now }
    ensures { result ≡ same index.now (index_of register.now) }
{
    slots::is_built(entry_layout(), register, register::in_use(register), index)
}

// Writes the index of the register.
pub fn build(register: &[u8], index: &mut [u8])
    requires { Measured register.now index.old }
    ensures { index.new ≡ index_of register.now }
{
    slots::build(entry_layout(), register, register::in_use(register), index)
}
