// Entries on lines: a label, then the word, the number and the place of an entry, as the judging program writes them.

// The bytes of 16 entries.
const OUT: usize = 256;

// The first 16 entries of a stream, and how many it has.
#[derive(Clone, Copy, PartialEq, Eq)]
pub struct Entries {
    pub out: [u8; OUT],
    pub made: usize,
}

// Bytes as they are. What cannot be printed is let go, and the program goes on.
pub fn write(rt: &impl Print, bytes: &[u8]) {
    let _ = rt.write_all(bytes);
}

fn word(word: u8) -> &'static [u8] {
    match word {
        0 => b" valid ",
        1 => b" invalid ",
        _ => b" refused ",
    }
}

// The bytes of an entry. Its place is four of them, the lowest first.
fn say_entry(rt: &impl Print, label: &[u8], entry: &[u8]) {
    if let [said, number, _, _, p0, p1, p2, p3, ..] = entry {
        write(rt, label);
        write(rt, word(*said));
        let place = u32::from_le_bytes([*p0, *p1, *p2, *p3]);
        let _ = println!(rt; "{number} {place}");
    }
}

impl Entries {
    pub fn none() -> Entries {
        Entries {
            out: [0; OUT],
            made: 0,
        }
    }

    // A line for each entry, after a label; `none` where there is none, and `more` where there are more than 16.
    pub fn say(&self, rt: &impl Print, label: &[u8]) {
        for entry in self.out.chunks_exact(16).take(self.made) {
            say_entry(rt, label, entry);
        }
        if self.made == 0 {
            write(rt, label);
            write(rt, b" none 0 0\n");
        }
        if 16 < self.made {
            write(rt, label);
            write(rt, b" more 0 0\n");
        }
    }

    // A single entry, with the word of a JSON text.
    pub fn is_json(&self) -> bool {
        self.made == 1 && self.out[0] < 2
    }
}
