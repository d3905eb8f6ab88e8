// The register of used identifiers: its form, the search of a key, and adding one. It knows nothing of what an identifier means.
#![tactic(auto)]

ghost use Rattle.std.specs.Prelude.{◌≡◌, ◌+◌, ◌-◌, ◌≤◌, ◌<◌, length};
ghost use Rattle.wire.specs.Field.{part, same};
ghost use Rattle.wire.specs.Places.{first_from};
ghost use Rattle.register.specs.Register.{key_width, key, used, room, in_use, free, key_at, is_there, stands, add};
ghost use Rattle.register.specs.Room.{FormTold, Parts};

// The tag of a message's key, and of a bulk's. Bytes and no enum, since `key_of` takes any.
pub const MESSAGE: u8 = 1;

pub const BULK: u8 = 2;

const SENDER_WIDTH: usize = 8;

const IDENTIFIER_WIDTH: usize = 35;

const TAG_PLACE: usize = SENDER_WIDTH + IDENTIFIER_WIDTH;

pub const KEY_WIDTH: usize = TAG_PLACE + 1;

// An entry is its key alone.
pub const ENTRY_WIDTH: usize = KEY_WIDTH;

pub const USED_WIDTH: usize = 4;

// The bytes that one step of a comparison looks at.
const WORD: usize = 8;

// The entries that one turn of a search looks at. The compiler writes them out one after the other, so that the turn itself costs little.
const ENTRIES_A_TURN: usize = 8;

// The entries by which a search guesses what tells its key apart: so many, unless that brings them nearer together than this.
const SAMPLES: usize = 4;

const APART: usize = 16;

const MOST_ENTRIES: usize = 60000;

// The number of entries that it says are used.
pub fn used(register: &[u8]) -> u32
    ensures { result ≡ used register.now }
{
    wire::u32_at(register, 0)
}

// The whole entries that it has room for.
pub fn room(register: &[u8]) -> usize
    ensures { result ≡ room register.now }
{
    register.len().saturating_sub(USED_WIDTH) / ENTRY_WIDTH
}

// The entries in use: no more than there is room for.
pub fn in_use(register: &[u8]) -> u32
    ensures { result ≡ in_use register.now }
{
    (used(register) as usize).min(room(register)) as u32
}

// The places that are not in use.
pub fn free(register: &[u8]) -> usize
    ensures { result ≡ free register.now }
{
    room(register).saturating_sub(used(register) as usize)
}

// Whether the register has the form that its layout asks; if not, that is refusal 4.
pub fn well_formed(register: &[u8]) -> bool
    ensures { FormTold register.now result }
{
    let all = room(register);
    let whole = register.len() == USED_WIDTH + ENTRY_WIDTH * all;
    (USED_WIDTH <= register.len())
        & whole
        & (all <= MOST_ENTRIES)
        & (used(register) as usize <= all)
}

// A key, put together: sender, identifier, tag.
pub fn key_of(sender: &[u8], identifier: &[u8], tag: u8) -> [u8; KEY_WIDTH]
    requires { Parts sender.now identifier.now }
    ensures { result ≡ key sender.now identifier.now tag }
{
    let mut made = [0u8; KEY_WIDTH];
    writing::put_text(&mut made, 0, sender);
    writing::put_text(&mut made, SENDER_WIDTH, identifier);
    made[TAG_PLACE] = tag;
    made
}

// Whether entry k has the key's word at `place`.
fn has_word(register: &[u8], k: usize, key: &[u8], place: usize) -> bool
    requires { (k < in_use register.now) × (length key.now ≡ key_width) × (place + 8 ≤ key_width) }
    ensures { result ≡ same (part (key_at register.now k) place 8) (part key.now place 8) }
{
    let at = USED_WIDTH + ENTRY_WIDTH * k + place;
    texts::same(&register[at..at + WORD], &key[place..place + WORD])
}

// Whether entry k has the key. One word is looked at before the whole, since mostly it differs.
fn has_key(register: &[u8], k: usize, key: &[u8], place: usize) -> bool
    requires { (k < in_use register.now) × (length key.now ≡ key_width) × (place + 8 ≤ key_width) }
    ensures { result ≡ same (key_at register.now k) key.now }
{
    let at = USED_WIDTH + ENTRY_WIDTH * k;
    has_word(register, k, key, place) && texts::same(&register[at..at + KEY_WIDTH], key)
}

// Whether one of the entries from `from` up to `to` has the key. Register, stretch and key stay parameters, here and below: a stretch is cut
// anew for each turn, so a struct of them would be no plainer.
fn stands_between(register: &[u8], from: usize, to: usize, key: &[u8], place: usize) -> bool
    requires { (to ≤ in_use register.now) × (length key.now ≡ key_width) × (place + 8 ≤ key_width) }
    ensures { result ≡ is_there (first_from (λ k. same (key_at register.now k) key.now) (to - from) from) }
{
    for k in from..to {
        if has_key(register, k, key, place) {
            return true;
        }
    }
    false
}

// How many of the samples from `from` up to `to` have the key's word.
fn samples_with_word(register: &[u8], from: usize, to: usize, key: &[u8], place: usize) -> usize
    requires { (from ≤ to) × (to ≤ in_use register.now) × (length key.now ≡ key_width) × (place + 8 ≤ key_width) }
{
    let step = (to - from) / SAMPLES + APART;
    let mut n = 0;
    let mut k = from;
    // By `step_by` a search takes 2.7 times the instructions: the compiler then no longer writes out the entries of a turn.
    while k < to {
        n += has_word(register, k, key, place) as usize;
        k += step.min(to - k);
    }
    n
}

// Where a search looks first, which changes no answer: the word that tells the key apart from most of the samples. Of those that do
// equally well it is the one nearest to the end of the identifier.
fn telling_word(register: &[u8], from: usize, to: usize, key: &[u8]) -> usize
    requires { (from ≤ to) × (to ≤ in_use register.now) × (length key.now ≡ key_width) }
    ensures { result + 8 ≤ key_width }
{
    let mut best = TAG_PLACE - WORD;
    let mut fewest = samples_with_word(register, from, to, key, best);
    let mut place = best;
    // No range of places: the last step is shorter than the others.
    while 0 < place {
        if fewest == 0 {
            return best;
        }
        place -= place.min(WORD);
        let n = samples_with_word(register, from, to, key, place);
        if n < fewest {
            best = place;
            fewest = n;
        }
    }
    best
}

// Whether one of the entries from `from` up to `to` has the key, by turns.
fn stands_by_turns(register: &[u8], from: usize, to: usize, key: &[u8]) -> bool
    requires { (from ≤ to) × (to ≤ in_use register.now) × (length key.now ≡ key_width) }
    ensures { result ≡ is_there (first_from (λ k. same (key_at register.now k) key.now) (to - from) from) }
{
    if from == to {
        return false;
    }
    let place = telling_word(register, from, to, key);
    let turns = (to - from) / ENTRIES_A_TURN;
    for i in 0..turns {
        let k = from + ENTRIES_A_TURN * i;
        if stands_between(register, k, k + ENTRIES_A_TURN, key, place) {
            return true;
        }
    }
    stands_between(register, from + ENTRIES_A_TURN * turns, to, key, place)
}

// Whether an entry has the key. The search reads no entry past those in use. Older and newer entries, unless they are few, are searched
// apart, since they may differ from the key in other words; and the compiler does not write out what is called twice, which leaves the
// code around this fast.
pub fn stands(register: &[u8], key: &[u8]) -> bool
    ensures { result ≡ stands register.now key.now }
{
    if key.len() != KEY_WIDTH {
        return false;
    }
    let n = in_use(register) as usize;
    let half = n / (2 * APART) * APART;
    if stands_by_turns(register, 0, half, key) {
        return true;
    }
    stands_by_turns(register, half, n, key)
}

// Adds the entry of a key at the first place that is not in use.
pub fn add(register: &mut [u8], key: &[u8])
    ensures { register.new ≡ add register.old key.now }
{
    let k = used(register) as usize;
    writing::put_text(register, USED_WIDTH + ENTRY_WIDTH * k, key);
    writing::put_number(register, 0, USED_WIDTH, k as u64 + 1);
}
