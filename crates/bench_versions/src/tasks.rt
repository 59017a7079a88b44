// What is asked of the versions.
use model::Entry;
use versions::Versions;

// Numbers that look random and are the same each time.
#[derive(Clone, Copy)]
pub struct Dice {
    state: u32,
}

impl Dice {
    pub fn new() -> Dice {
        Dice { state: 1 }
    }

    fn roll(&mut self) -> u32 {
        self.state = self.state.wrapping_mul(1664525).wrapping_add(1013904223);
        self.state
    }
}

pub fn mixed(sum: u32, seen: u32) -> u32 {
    sum.wrapping_mul(31).wrapping_add(seen)
}

// The key, or its neighbour where it is the last one.
fn other_than(last: u32, key: u32) -> u32 {
    if key == last { key ^ 1 } else { key }
}

// Writes of keys that differ from one to the next.
pub fn deal_writes(dice: &mut Dice, writes: &mut [Entry]) {
    let mut last = 0;
    for w in writes.iter_mut() {
        let r = dice.roll();
        let key = other_than(last, r >> 20);
        *w = Entry { key, value: r };
        last = key;
    }
}

// Looks at keys when any of the last commits were done.
pub fn deal_looks(dice: &mut Dice, looks: &mut [Entry], number: u32) {
    for l in looks.iter_mut() {
        let r = dice.roll();
        let back = (r >> 6) & 16383;
        *l = Entry {
            key: r >> 20,
            value: number.wrapping_sub(back),
        };
    }
}

// Commits the writes, two at a time, until there is no room. Gives the number of the next commit.
pub fn fill(versions: &mut Versions, writes: &[Entry], first: u32) -> u32 {
    let mut number = first;
    for pair in writes.chunks_exact(2) {
        if versions.commit(number, pair).is_err() {
            break;
        }
        number = number.wrapping_add(1);
    }
    number
}

// One write more if there is room for it. Gives the number of the next commit.
pub fn top_up(versions: &mut Versions, number: u32) -> u32 {
    let last = [Entry { key: 0, value: 1 }];
    if versions.commit(number, &last).is_ok() {
        number.wrapping_add(1)
    } else {
        number
    }
}

pub fn look(versions: &Versions, looks: &[Entry]) -> u32 {
    looks
        .iter()
        .fold(0, |sum, l| mixed(sum, versions.shown(l.key, l.value)))
}
